// The bytes of a delivery, read as document 01 says: lines, columns, numbers and codes.
// Every public function answers exactly what a definition of the crate `iff` says of the same bytes.
#![tactic(auto)]

ghost use Rattle.std.specs.Prelude.{◌≡◌, ◌+◌, ◌-◌, ◌≤◌, ◌<◌, length, take, drop, get_or};
ghost use Rattle.iff.specs.Lists.{all, same};
ghost use Rattle.iff.specs.Bytes.{allowed, digit, zero_or_one};
ghost use Rattle.iff.specs.Lines.{lines, crlf, eol_at};
ghost use Rattle.text.specs.Spans.{LineAt};
ghost use Rattle.iff.specs.Values.{value, number_of, code_of};

// Single bytes.

pub fn is_allowed(b: u8) -> bool
    ensures { result ≡ allowed b }
{
    if b < 32 {
        return false;
    }
    if b <= 126 {
        return true;
    }
    160 <= b
}

pub fn is_digit(b: u8) -> bool
    ensures { result ≡ digit b }
{
    b.is_ascii_digit()
}

pub fn is_mark(b: u8) -> bool
    ensures { result ≡ zero_or_one b }
{
    b == b'0' || b == b'1'
}

// The byte at `i`, and 0, which no record has, beyond the end: so a reader can look one byte ahead without asking for room.
pub fn byte_at(text: &[u8], i: usize) -> u8
    ensures { result ≡ get_or text.now i 0 }
{
    text.get(i).copied().unwrap_or(0)
}

// The letter of a line's record.
pub fn first_byte(line: &[u8]) -> u8
    ensures { result ≡ get_or line.now 0 0 }
{
    byte_at(line, 0)
}

// Lines.

// CR LF stands at `i`.
fn ends(text: &[u8], i: usize) -> bool
    requires { i < length text.now }
    ensures { result ≡ crlf (get_or text.now i 0) (get_or text.now (i + 1) 0) }
{
    if text[i] != b'\r' {
        return false;
    }
    byte_at(text, i + 1) == b'\n'
}

// Where the line that starts at `at` ends, if CR LF ends it.
pub fn line_end(text: &[u8], at: usize) -> Option<usize>
    requires { at ≤ length text.now }
    ensures { result ≡ eol_at text.now at }
{
    for i in at..text.len() {
        if ends(text, i) {
            return Some(i);
        }
    }
    None
}

// A line where it stands: its body is `at..end`, CR LF ends it or nothing does, and the next line begins at `next`.
#[derive(Clone, Copy)]
pub struct LineSpan {
    pub end: usize,
    pub ended: bool,
    pub next: usize,
}

// The line that starts at `at`.
pub fn line_at(text: &[u8], at: usize) -> LineSpan
    requires { at < length text.now }
    ensures { LineAt text.now at result }
{
    match line_end(text, at) {
        Some(e) => LineSpan {
            end: e,
            ended: true,
            next: e + 2,
        },
        None => LineSpan {
            end: text.len(),
            ended: false,
            next: text.len(),
        },
    }
}

// Columns `from..to` of a line, counted from 0, as far as it goes.
pub fn columns_of(line: &[u8], from: usize, to: usize) -> &[u8]
    requires { from ≤ to }
    ensures { result.now ≡ take (to - from) (drop from line.now) }
{
    let end = line.len();
    &line[from.min(end)..to.min(end)]
}

pub fn same_bytes(a: &[u8], b: &[u8]) -> bool
    ensures { result ≡ same a.now b.now }
{
    a == b
}

// Fields.

pub fn all_digits(field: &[u8]) -> bool
    ensures { result ≡ all digit field.now }
{
    field.iter().all(|b| is_digit(*b))
}

// What a byte counts for, above `off`: a digit above '0', a code's byte above 0.
pub fn byte_value(b: u8, off: u8) -> u64
    ensures { (result ≡ b - off) × (result < 256) }
{
    u64::from(b.saturating_sub(off))
}

// The value of a field, first byte highest. Eight bytes in base 256 are what a word holds.
fn field_value(field: &[u8], base: u64, off: u8) -> u64
    requires { (length field.now ≤ 8) × (base ≤ 256) }
    ensures { result ≡ value base off 0 field.now }
{
    let mut acc: u64 = 0;
    for b in field {
        acc = acc * base + byte_value(*b, off);
    }
    acc
}

pub fn number(field: &[u8]) -> u64
    requires { length field.now ≤ 8 }
    ensures { result ≡ number_of field.now }
{
    field_value(field, 10, b'0')
}

pub fn code(field: &[u8]) -> u64
    requires { length field.now ≤ 8 }
    ensures { result ≡ code_of field.now }
{
    field_value(field, 256, 0)
}
