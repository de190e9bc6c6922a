// One line of one record: its layout, its figures and codes, and the row that it leaves, by the columns of the crate `records`.
// What a function does it does for every record, and is proved once. Only the vector, which is as wide as there are days, has functions of its own.
#![tactic(auto)]

ghost use Rattle.std.specs.Prelude.{◌≡◌, true, ◌||◌, [], ◌∷◌, suc, ◌-◌, ◌*◌, ◌≤◌, ◌<◌, length, drop, replicate};
ghost use Rattle.std.proofs.Math.Seq.{slice};
ghost use Rattle.iff.specs.Bytes.{digit, zero_or_one};
ghost use Rattle.iff.specs.Lists.{all};
ghost use Rattle.iff.specs.Columns.{record_fields, picture, fits, laid, columns};
ghost use Rattle.iff.specs.Values.{readable, words, word_count, field_right, field_words, is_wildcard, bits, vector_words, vector_width};
ghost use Rattle.iff.specs.Tables.{padded};
ghost use Rattle.records.specs.Layouts.{line_of, fields, field_at, word_by, right_by, right_in, picture_in, readable_in, in_order, layout_test};
ghost use Rattle.records.specs.Facts.{Legible, LineRead, Inside, Entries, SpansFit};

use records::Spans;

// Layout.

// A vector's columns are allowed bytes, one for each day.
fn fits_days(line: &[u8], days: usize) -> bool
    ensures { result ≡ fits line.now (replicate days 109) }
{
    if line.len() != days {
        return false;
    }
    line.iter().all(|b| text::is_allowed(*b))
}

// A record's length, its commas, allowed bytes, and CR LF.
pub fn is_laid(record: iff::Record, form: iff::Form, line: &[u8], ended: bool) -> bool
    ensures { result ≡ laid (line_of line.now ended) (record_fields form «record») }
{
    if !ended {
        return false;
    }
    let s = records::spans_of(record);
    let to = s.1;
    if to == 0 {
        return fits_days(line, form.days);
    }
    let from = s.0;
    let looks = records::looks_in(line, from, to);
    looks.0
}

// Figures and codes.

// A vector's marks.
fn all_marks(line: &[u8]) -> bool
    ensures { result ≡ all zero_or_one line.now }
{
    line.iter().all(|b| text::is_mark(*b))
}

// Digits or the wildcard.
fn is_company_or_any(field: &[u8]) -> bool
    ensures { result ≡ (all digit field.now || is_wildcard field.now) }
{
    if text::all_digits(field) {
        return true;
    }
    fields::is_wildcard(field)
}

// A field of a class is right; the digits of a number are figures.
fn is_right(class: u8, field: &[u8]) -> bool
    ensures { result ≡ right_by class field.now }
{
    match class {
        b'a' => is_company_or_any(field),
        b'c' => !fields::all_blank(field),
        _ => true,
    }
}

fn is_field_right(line: &[u8], j: usize) -> bool
    requires { Inside (length line.now) (field_at j) }
    ensures { result ≡ field_right (field_at j).class (columns line.now (field_at j)) }
{
    let e = records::entry_at(j);
    let start = e.0 - 1;
    let end = start + e.1;
    is_right(e.2, &line[start..end])
}

fn are_fields_right(line: &[u8], first: usize, end: usize) -> bool
    requires { Entries first end line.now }
    ensures { result ≡ right_in line.now (slice first end fields) }
{
    for j in first..end {
        if !is_field_right(line, j) {
            return false;
        }
    }
    true
}

// Layout (4) before value (5).

// The vector's.
fn vector_layout(line: &[u8], days: usize) -> iff::Test
    ensures { result ≡ in_order (fits line.now (replicate days 109)) (all zero_or_one line.now) }
{
    if !fits_days(line, days) {
        return Err(iff::Reason::Layout);
    }
    if !all_marks(line) {
        return Err(iff::Reason::Value);
    }
    Ok(())
}

// Those of a record of fixed columns.
fn fixed_layout(line: &[u8], s: Spans) -> iff::Test
    requires { SpansFit s line.now }
    ensures { result ≡ in_order (fits line.now (picture_in s)) (readable_in s line.now) }
{
    let from = s.0;
    let to = s.1;
    let looks = records::looks_in(line, from, to);
    if !looks.0 {
        return Err(iff::Reason::Layout);
    }
    if !looks.1 {
        return Err(iff::Reason::Value);
    }
    let first = s.2;
    let end = s.3;
    if !are_fields_right(line, first, end) {
        return Err(iff::Reason::Value);
    }
    Ok(())
}

// Those of any record.
pub fn line_layout(record: iff::Record, form: iff::Form, line: &[u8], ended: bool) -> iff::Test
    ensures { result ≡ layout_test (line_of line.now ended) (record_fields form «record») }
{
    if !ended {
        return Err(iff::Reason::Layout);
    }
    let s = records::spans_of(record);
    let to = s.1;
    if to == 0 {
        return vector_layout(line, form.days);
    }
    fixed_layout(line, s)
}

// Digits where numbers are due, marks where a vector's are, codes that are not all blank: asked by itself of a line that has its layout.
pub fn is_readable(record: iff::Record, form: iff::Form, line: &[u8]) -> bool
    requires { fits line.now (picture (record_fields form «record»)) ≡ true }
    ensures { result ≡ readable line.now (record_fields form «record») }
{
    match line_layout(record, form, line, true) {
        Ok(()) => true,
        Err(_) => false,
    }
}

// Rows.

fn word_of(class: u8, n: u64, field: &[u8]) -> u64
    requires { length field.now ≤ 8 }
    ensures { result ≡ word_by class n field.now }
{
    match class {
        b'n' => text::number(field),
        b's' => fields::stop_of(n, text::number(field)),
        b'a' => fields::company_or_any(field),
        _ => text::code(field),
    }
}

fn field_word(n: u64, line: &[u8], j: usize) -> u64
    requires { Inside (length line.now) (field_at j) }
    ensures { field_words n (field_at j).class (columns line.now (field_at j)) ≡ result ∷ [] }
{
    let e = records::entry_at(j);
    let start = e.0 - 1;
    let end = start + e.1;
    word_of(e.2, n, &line[start..end])
}

fn put_fields(tag: u64, n: u64, line: &[u8], first: usize, end: usize, out: &mut [u64])
    requires { Entries first end line.now × (end - first < length out.old) }
    ensures { out.new ≡ padded (length out.old) (tag ∷ words n line.now (slice first end fields)) }
{
    table_writes::clear(out);
    out[0] = tag;
    for j in first..end {
        out[j - first + 1] = field_word(n, line, j);
    }
}

// 64 marks, from the `k`th 64 on; none where the vector has ended.
fn marks_at(line: &[u8], k: usize) -> u64
    requires { (k < vector_width) × (all zero_or_one line.now ≡ true) }
    ensures { result ≡ bits 64 (drop (k * 64) line.now) }
{
    let at = k * 64;
    if line.len() <= at {
        return 0;
    }
    fields::mark_word(&line[at..])
}

fn put_marks(tag: u64, line: &[u8], out: &mut [u64])
    requires { (all zero_or_one line.now ≡ true) × (vector_width < length out.old) }
    ensures { out.new ≡ padded (length out.old) (tag ∷ vector_words vector_width line.now) }
{
    table_writes::clear(out);
    out[0] = tag;
    for i in 0..iff::limits::MARK_WORDS {
        out[i + 1] = marks_at(line, i);
    }
}

// The row of a line that passed its layout and values, in a block of `n` stops: the tag, the words of its fields, and zeros.
pub fn put_words(
    record: iff::Record,
    tag: u64,
    form: iff::Form,
    n: u64,
    line: &[u8],
    out: &mut [u64],
)
    requires { Legible form «record» line.now (length out.old) }
    ensures { out.new ≡ padded (length out.old) (tag ∷ words n line.now (record_fields form «record»)) }
{
    let s = records::spans_of(record);
    let to = s.1;
    if to == 0 {
        put_marks(tag, line, out);
        return;
    }
    let first = s.2;
    let end = s.3;
    put_fields(tag, n, line, first, end, out);
}

// A line's layout and values, and its row where both are right.
pub fn read_line(
    kind: iff::Record,
    tag: u64,
    form: iff::Form,
    line: &[u8],
    ended: bool,
    row: &mut [u64],
) -> iff::Test
    requires { suc (word_count (record_fields form kind)) ≤ length row.old }
    ensures { LineRead form kind tag (line_of line.now ended) row.old row.new result }
{
    line_layout(kind, form, line, ended)?;
    put_words(kind, tag, form, 0, line, row);
    Ok(())
}
