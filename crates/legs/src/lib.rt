// Test 10 of document 01, "Legs", on rows, as the definition has it: whether first and last of a record are in range, and the legs that lie in it, which
// are marked.
#![tactic(auto)]

ghost use Rattle.std.specs.Prelude.{◌≡◌, ◌≤◌, length};
ghost use Rattle.iff.specs.Words.{named};
ghost use Rattle.iff_rules.specs.Legs.{reach_of, in_range, ranged, ranged_by};
ghost use Rattle.leg_marks.specs.Tally.{Tally};
ghost use Rattle.legs.specs.Rows.{times, SpanOf, Markable};

// The stops that a record goes from and to.
#[derive(Clone, Copy)]
pub struct Span {
    pub first: u64,
    pub last: u64,
}

// Of a record that names none, what stands there says nothing.
pub fn span_of(row: &[u64]) -> Span
    requires { 5 ≤ length row.now }
    ensures { SpanOf row.now result }
{
    if row[iff::words::TAG] == iff::tags::PERCENT {
        return Span {
            first: row[iff::words::TRAIN_FIRST],
            last: row[iff::words::TRAIN_LAST],
        };
    }
    Span {
        first: row[iff::words::RECORD_FIRST],
        last: row[iff::words::RECORD_LAST],
    }
}

// 1 ≤ first < last ≤ n
pub fn is_strict(row: &[u64], n: u64) -> bool
    requires { 5 ≤ length row.now }
    ensures { result ≡ ranged n row.now }
{
    let s = span_of(row);
    if s.first < 1 {
        return false;
    }
    if s.last <= s.first {
        return false;
    }
    s.last <= n
}

// 1 ≤ first ≤ last ≤ n: an attribute may be one stop's. The reach of every attribute is the same today, so its code is not asked.
pub fn is_loose(row: &[u64], n: u64) -> bool
    requires { 5 ≤ length row.now }
    ensures { result ≡ ranged_by (reach_of (named row.now)) n row.now }
{
    let span = span_of(row);
    if span.first < 1 {
        return false;
    }
    if span.last < span.first {
        return false;
    }
    span.last <= n
}

// First and last of any record of a block of n stops.
pub fn is_in_range(row: &[u64], n: u64) -> bool
    requires { 5 ≤ length row.now }
    ensures { result ≡ in_range reach_of n row.now }
{
    match row[iff::words::TAG] {
        iff::tags::PERCENT => is_strict(row, n),
        iff::tags::DASH => is_strict(row, n),
        iff::tags::AMPERSAND => is_strict(row, n),
        iff::tags::ASTERISK => is_loose(row, n),
        _ => true,
    }
}

// Marks the legs of a record of this kind, of a block of n stops; one of another kind has none.
pub fn mark_row(row: &[u64], n: u64, kind: u64, marks: &mut [u8]) -> bool
    requires { Markable row.now n kind (length marks.old) }
    ensures { Tally 1 n (λ k. times kind k row.now) marks.old marks.new result }
{
    if row[iff::words::TAG] != kind {
        return true;
    }
    let s = span_of(row);
    leg_marks::mark_legs(marks, s.first, s.last)
}
