// The first row of a lent table with a tag and a key. Every function is stated over the width of a row.
#![tactic(auto)]

ghost use Rattle.std.specs.Prelude.{◌≡◌, ◌-◌, ◌*◌, ◌<◌, ◌≤◌, length, drop};
ghost use Rattle.iff.specs.Lists.{any};
ghost use Rattle.iff.specs.Tables.{rows_up_to, rows_of_width, keyed, first_row};

// The first row with this tag and key among the rows from `from` on and before `to`. An unused row ends the search.
pub fn find_key_in(
    t: &[u64],
    w: usize,
    from: usize,
    to: usize,
    tag: u64,
    col: usize,
    key: u64,
) -> Option<usize>
    requires { (col < w) × (to * w ≤ length t.now) }
    ensures { result ≡ first_row (keyed tag col key) from (rows_up_to w (to - from) (drop (from * w) t.now)) }
{
    for i in from..to {
        if tables::word_at(t, w, i, iff::words::TAG) == 0 {
            return None;
        }
        if tables::keyed_at(t, w, i, tag, col, key) {
            return Some(i);
        }
    }
    None
}

// The first row of a table with this tag and key.
pub fn find_key(t: &[u64], w: usize, tag: u64, col: usize, key: u64) -> Option<usize>
    requires { col < w }
    ensures { result ≡ first_row (keyed tag col key) 0 (rows_of_width w t.now) }
{
    find_key_in(t, w, 0, t.len() / w, tag, col, key)
}

// A table has a row with this tag and key.
pub fn has_key(t: &[u64], w: usize, tag: u64, col: usize, key: u64) -> bool
    requires { col < w }
    ensures { result ≡ any (keyed tag col key) (rows_of_width w t.now) }
{
    find_key(t, w, tag, col, key).is_some()
}
