// Walks over the groups of a table, by the numbers of its rows.
#![tactic(auto)]

ghost use Rattle.std.specs.Prelude.{◌*◌, ◌<◌, ◌≤◌, length};
ghost use Rattle.walks.specs.Heads.{NextHead};

// The first `#` row from row `from` on and before row `to`, or `to` where there is none.
pub fn next_head(t: &[u64], w: usize, from: usize, to: usize) -> usize
    requires { (0 < w) × (from ≤ to) × (to * w ≤ length t.now) }
    ensures { NextHead w t.now from to result }
{
    for i in from..to {
        if tables::word_at(t, w, i, iff::words::TAG) == iff::tags::HASH {
            return i;
        }
    }
    to
}
