// The columns of a line beside a picture, and what its fields hold: blanks, wildcards, companies, the marks of a vector, stops.
// Every function answers exactly what a definition of the crate `iff` says of the same bytes.
#![tactic(auto)]

ghost use Rattle.std.specs.Prelude.{◌≡◌, true, ◌≤◌, length, take};
ghost use Rattle.iff.specs.Lists.{all};
ghost use Rattle.iff.specs.Bytes.{zero_or_one};
ghost use Rattle.iff.specs.Columns.{column, fits, figure, figures};
ghost use Rattle.iff.specs.Values.{all_blank, is_wildcard, company_or_any, bits, stop_of};

// Columns beside a picture.

// A comma in a gap, an allowed byte elsewhere.
fn is_column(b: u8, mark: u8) -> bool
    ensures { result ≡ column b mark }
{
    if mark == b',' {
        return b == b',';
    }
    text::is_allowed(b)
}

// The layout of a record: its length, its commas, allowed bytes.
pub fn fits_picture(line: &[u8], picture: &[u8]) -> bool
    ensures { result ≡ fits line.now picture.now }
{
    if line.len() != picture.len() {
        return false;
    }
    line.iter()
        .zip(picture)
        .all(|(b, mark)| is_column(*b, *mark))
}

// A digit where the picture has a number, a mark where it has a vector.
fn is_figure(b: u8, mark: u8) -> bool
    ensures { result ≡ figure b mark }
{
    if mark == b'n' {
        return text::is_digit(b);
    }
    if mark == b'm' {
        return text::is_mark(b);
    }
    true
}

// The figures of a record. A line of another length than its picture has not passed its layout, and is answered no.
pub fn has_figures(line: &[u8], picture: &[u8]) -> bool
    ensures { result ≡ figures line.now picture.now }
{
    if line.len() != picture.len() {
        return false;
    }
    line.iter()
        .zip(picture)
        .all(|(b, mark)| is_figure(*b, *mark))
}

// Fields.

pub fn all_blank(field: &[u8]) -> bool
    ensures { result ≡ all_blank field.now }
{
    field.iter().all(|b| *b == b' ')
}

// `*` followed by blanks, at any width. An empty field is none.
pub fn is_wildcard(field: &[u8]) -> bool
    ensures { result ≡ is_wildcard field.now }
{
    match field {
        [b'*', behind @ ..] => all_blank(behind),
        _ => false,
    }
}

// A company's number, or the wildcard's own code.
pub fn company_or_any(field: &[u8]) -> u64
    requires { length field.now ≤ 8 }
    ensures { result ≡ company_or_any field.now }
{
    if is_wildcard(field) {
        return text::code(field);
    }
    text::number(field)
}

// The first 64 marks of a vector as a word, the first lowest. The last is read first, so that k marks read make a number below 2 to the k.
// A byte that is no mark could count for more than one bit, so the marks must have been tested.
pub fn mark_word(marks: &[u8]) -> u64
    requires { all zero_or_one (take 64 marks.now) ≡ true }
    ensures { result ≡ bits 64 marks.now }
{
    let mut word: u64 = 0;
    for i in (0..64).rev() {
        word = word * 2 + text::byte_value(text::byte_at(marks, i), b'0');
    }
    word
}

// Stop 000 is the first, and 999 the last, whose number the block gives.
pub fn stop_of(n: u64, k: u64) -> u64
    ensures { result ≡ stop_of n k }
{
    match k {
        0 => 1,
        999 => n,
        _ => k,
    }
}
