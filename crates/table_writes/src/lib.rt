// Lent tables written: a row put where it is to stand, and a table cleared.
#![tactic(auto)]

ghost use Rattle.std.specs.Prelude.{◌≡◌, ◌+◌, ◌*◌, ◌≤◌, length, replicate};
ghost use Rattle.iff.specs.Tables.{put_row};

// Puts `row` where row `i` stands.
pub fn put_row(t: &mut [u64], w: usize, i: usize, row: &[u64])
    requires { (length row.now ≡ w) × (i * w + w ≤ length t.old) }
    ensures { t.new ≡ put_row w t.old i row.now }
{
    let at = i * w;
    t[at..at + w].copy_from_slice(row);
}

// A table that holds nothing: all its words zero.
pub fn clear(t: &mut [u64])
    ensures { t.new ≡ replicate (length t.old) 0 }
{
    t.fill(0);
}
