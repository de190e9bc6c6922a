// Rows in lent u64 slices: read, counted, and asked for their keys. Every function is stated over the width of a row.
#![tactic(auto)]

ghost use Rattle.std.specs.Prelude.{◌≡◌, ◌+◌, ◌*◌, ◌<◌, ◌≤◌, length, get_or, drop};
ghost use Rattle.iff.specs.Tables.{room as room_of, word, row_at, rows_of_width, all_zero, keyed};
ghost use Rattle.tables.specs.Widths.{WidthOf};

// How many words a row of TIMETBLS has.
pub const BLOCK_WIDTH: usize = 7;

// How many words a row of a file's table has.
pub fn row_width(file: iff::File) -> usize
    ensures { WidthOf file result }
{
    match file {
        iff::File::Delivery => 6,
        iff::File::Rows(_) => 6,
        iff::File::Groups(group) => match group {
            iff::GroupFile::Timezone => 6,
            iff::GroupFile::Footnote => iff::limits::WIDEST_ROW,
            iff::GroupFile::Changes => 6,
            iff::GroupFile::Xfootnote => iff::limits::WIDEST_ROW,
            iff::GroupFile::Xchanges => 7,
        },
        iff::File::Timetbls => BLOCK_WIDTH,
    }
}

// How many lines a table of `length` words has room for.
pub fn room(file: iff::File, length: usize) -> usize
    ensures { result ≡ room_of file length }
{
    let w = row_width(file);
    length / w
}

// Word `k` of a table, and 0 where it has none: so a reader can look into a table that may be empty.
pub fn word_or_zero(t: &[u64], k: usize) -> u64
    ensures { result ≡ get_or t.now k 0 }
{
    t.get(k).copied().unwrap_or(0)
}

// Word `k` of row `i`.
pub fn word_at(t: &[u64], w: usize, i: usize, k: usize) -> u64
    requires { (k < w) × (i * w + w ≤ length t.now) }
    ensures { result ≡ word (row_at w t.now i) k }
{
    t[i * w + k]
}

// All words from `from` on are zero; so they are where there are none.
pub fn zero_from(t: &[u64], from: usize) -> bool
    ensures { result ≡ all_zero (drop from t.now) }
{
    t[from.min(t.len())..].iter().all(|word| *word == 0)
}

// How many rows a table holds: up to the first whose first word is 0.
pub fn row_count(t: &[u64], w: usize) -> usize
    requires { 0 < w }
    ensures { result ≡ length (rows_of_width w t.now) }
{
    let rows = t.len() / w;
    for i in 0..rows {
        if word_at(t, w, i, iff::words::TAG) == 0 {
            return i;
        }
    }
    rows
}

// Row `i` has this tag and, in word `col`, this key.
pub fn keyed_at(t: &[u64], w: usize, i: usize, tag: u64, col: usize, key: u64) -> bool
    requires { (col < w) × (i * w + w ≤ length t.now) }
    ensures { result ≡ keyed tag col key (row_at w t.now i) }
{
    if word_at(t, w, i, iff::words::TAG) != tag {
        return false;
    }
    word_at(t, w, i, col) == key
}
