// How many rows of a table are in use, where all behind them is zero, as in every table that was found sound.
#![tactic(auto)]

ghost use Rattle.std.specs.Prelude.{◌≡◌, true, ◌*◌, length, drop};
ghost use Rattle.iff.specs.Tables.{row_width, rows_in, all_zero};

// By halves: a row whose first word is 0 is none in use, and none behind it is; every other is one. Most tables are long, and their rows are far apart
// in memory: so this takes as good as no time, where going through them takes a tenth of what the test of soundness took.
pub fn used_by_halves(file: iff::File, t: &[u64]) -> usize
    requires { all_zero (drop (length (rows_in file t.now) * row_width file) t.now) ≡ true }
    ensures { result ≡ length (rows_in file t.now) }
{
    let w = tables::row_width(file);
    let mut low = 0;
    let mut high = t.len() / w;
    // A loop by hand: which half is left is known only from the row in the middle, so no range says it.
    while low < high {
        let middle = low + (high - low) / 2;
        if tables::word_at(t, w, middle, iff::words::TAG) == 0 {
            high = middle;
        } else {
            low = middle + 1;
        }
    }
    low
}
