// A key of a table searched for by halves.
#![tactic(auto)]

ghost use Rattle.std.specs.Prelude.{◌+◌, ◌*◌, ◌<◌, ◌≤◌, length};
ghost use Rattle.iff.specs.Tables.{row_width};
ghost use Rattle.iff.specs.declared.File.TheVariants.{Timetbls};
ghost use Rattle.keys.specs.Lookup.{HitRow};

// The `#` of a footnote stands right before its vector, and the first of them in row 1.
fn footnote_head(i: usize) -> usize
    requires { 0 < i }
    ensures { result ≤ i }
{
    if i % 2 == 1 {
        return i;
    }
    i - 1
}

// A row of TIMETBLS tells the line's number in its block, so that its `#` is found in one step. A number that leads out of the table is no help.
fn block_head(t: &[u64], i: usize) -> usize
    requires { i * row_width Timetbls + row_width Timetbls ≤ length t.now }
    ensures { result ≤ i }
{
    let line = tables::word_at(t, tables::BLOCK_WIDTH, i, iff::words::LINE_NUMBER) as usize;
    if line == 0 {
        return i;
    }
    if i < line {
        return i;
    }
    i - (line - 1)
}

// Of the files of groups only those of footnotes have rows at fixed places.
fn group_head(file: iff::GroupFile, i: usize) -> usize
    requires { 0 < i }
    ensures { result ≤ i }
{
    match file {
        iff::GroupFile::Timezone => i,
        iff::GroupFile::Footnote => footnote_head(i),
        iff::GroupFile::Changes => i,
        iff::GroupFile::Xfootnote => footnote_head(i),
        iff::GroupFile::Xchanges => i,
    }
}

// The row that names what row `i` belongs to. It is where a search looks, and nothing rests on its being right.
fn head_row(file: iff::File, t: &[u64], i: usize) -> usize
    requires { (0 < i) × (i * row_width file + row_width file ≤ length t.now) }
    ensures { result ≤ i }
{
    match file {
        iff::File::Delivery => i,
        iff::File::Rows(_) => i,
        iff::File::Groups(group) => group_head(group, i),
        iff::File::Timetbls => block_head(t, i),
    }
}

// A search by halves among the first rows, row 0 apart, which is the first line's. A row is tested before it is called found, so what is found
// leans on no order of the keys. Where they rise every key is found, and where they do not one may be missed: that is a matter of time alone.
pub fn found_by_halves(file: iff::File, t: &[u64], used: usize, key: u64) -> Option<usize>
    ensures { HitRow file used t.now key result }
{
    let w = tables::row_width(file);
    let tag = keys::key_tag(file);
    let col = keys::key_word(file);
    let rows = keys::rows_among(t, w, used);
    let mut low = 1;
    let mut high = rows;
    // A loop by hand: it looks at the head of the middle row and may end there, which no search of the library over a sorted slice does.
    while low < high {
        let middle = low + (high - low) / 2;
        let at = head_row(file, t, middle);
        if tables::keyed_at(t, w, at, tag, col, key) {
            return Some(at);
        }
        if tables::word_at(t, w, at, col) < key {
            low = middle + 1;
        } else {
            high = middle;
        }
    }
    None
}
