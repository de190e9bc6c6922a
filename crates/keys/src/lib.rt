// The keys of tables: which rows and words they are, the rows that a lookup goes through, and the slots that are tried for a key.
#![tactic(auto)]

ghost use Rattle.std.specs.Prelude.{◌≡◌, ◌+◌, ◌*◌, ◌/◌, ◌<◌, ◌≤◌, length};
ghost use Rattle.iff.specs.Lists.{has};
ghost use Rattle.iff.specs.Tables.{row_width, rows_in, key_tag, key_word};
ghost use Rattle.iff.specs.declared.File.TheVariants.{Timetbls};
ghost use Rattle.keys.specs.Lookup.{keys_in, at_most};
ghost use Rattle.keys.specs.Places.{probes, few, place_of};

// KEYS

// The first word of the rows that name something.
pub fn key_tag(file: iff::File) -> u64
    ensures { result ≡ key_tag file }
{
    match file {
        iff::File::Delivery => iff::tags::LETTERLESS,
        iff::File::Rows(_) => iff::tags::LETTERLESS,
        iff::File::Groups(_) => iff::tags::HASH,
        iff::File::Timetbls => iff::tags::HASH,
    }
}

// The word of such a row that is the name.
pub fn key_word(file: iff::File) -> usize
    ensures { result ≡ key_word file }
{
    match file {
        iff::File::Delivery => iff::words::OWN_COMPANY,
        iff::File::Rows(rows) => match rows {
            iff::RowFile::Company => iff::words::COMPANY_NUMBER,
            iff::RowFile::Country => iff::words::NAMED,
            iff::RowFile::Trnsmode => iff::words::NAMED,
            iff::RowFile::Stations => iff::words::SHORT_NAME,
        },
        iff::File::Groups(_) => iff::words::NAMED,
        iff::File::Timetbls => iff::words::NAMED,
    }
}

// A file's table names this key. Every row in use is gone through.
pub fn names(file: iff::File, t: &[u64], key: u64) -> bool
    ensures { result ≡ has key (keys_in file t.now) }
{
    let w = tables::row_width(file);
    let tag = key_tag(file);
    let col = key_word(file);
    key_rows::has_key(t, w, tag, col, key)
}

// How many rows of a table are in use.
pub fn used_rows(file: iff::File, t: &[u64]) -> usize
    ensures { result ≡ length (rows_in file t.now) }
{
    let w = tables::row_width(file);
    tables::row_count(t, w)
}

// How many rows a lookup goes through: those in use, as far as there is room for them.
pub fn rows_among(t: &[u64], w: usize, used: usize) -> usize
    requires { 0 < w }
    ensures { result ≡ at_most used (length t.now / w) }
{
    // A product is quicker than a division, and where the rows in use are in the table it says the same.
    if used < 4294967296 {
        if w < 4294967296 {
            if used * w <= t.len() {
                return used;
            }
        }
    }
    let room = t.len() / w;
    if used < room {
        return used;
    }
    room
}

// Where the block after the one in row `i` begins, by the number of lines that its `#` tells; the end of the rows where a number leads nowhere.
pub fn next_block(t: &[u64], rows: usize, i: usize) -> usize
    requires { (i < rows) × (i * row_width Timetbls + row_width Timetbls ≤ length t.now) }
    ensures { (i < result) × (result ≤ rows) }
{
    let lines = tables::word_at(t, tables::BLOCK_WIDTH, i, iff::words::LINE_COUNT) as usize;
    if lines == 0 {
        return rows;
    }
    if rows - i <= lines {
        return rows;
    }
    i + lines
}

// PLACES: the row of each key, as a hint. A row that it leads to is tested, so nothing rests on what stands there.

// How many slots are tried for a key. The keys of several tables share the slots, and a number may be a key in each of them, so that some keys
// want the same slot; with so many to try a key next to never finds none free where half of the slots are.
pub const PROBES: usize = 64;

// So many that a product with 32 bits is a word.
fn at_most_32_bits(n: u64) -> u64
    ensures { result ≡ few n }
{
    if n < 4294967296 { n } else { 4294967295 }
}

// The first slot for a key, of as many as there are; the last ones are no first slots. A caller who lends a prime number of slots and PROBES more
// has the keys spread: codes end in blanks, and a power of two would put most of them into one slot. Numbers come in runs, which the factor takes
// apart, so that the runs of two tables do not fill up one stretch. What is left of a key by the first number, times the factor, fits a word.
pub fn place_of(key: u64, slots: usize) -> usize
    requires { probes < slots }
    ensures { (result ≡ place_of key slots) × (result + probes < slots) }
{
    let firsts = at_most_32_bits((slots - PROBES) as u64);
    let spread = key % 4294967291 * 2654435761 % 4294967296;
    (spread * firsts / 4294967296) as usize
}
