// Records of legs in a block's rows in a table that follow each other from the first stop to the last: those of one kind, and those of all kinds in
// one pass.
#![tactic(auto)]

ghost use Rattle.std.specs.Prelude.{◌≡◌, ◌+◌, ◌*◌, ◌≤◌, length};
ghost use Rattle.iff.specs.Tables.{row_at, row_width};
ghost use Rattle.iff.specs.declared.File.TheVariants.{Timetbls};
ghost use Rattle.iff_rules.specs.Legs.{reach_of, in_range};
ghost use Rattle.linked_legs.specs.Links.{block_between, stop_after, linked, all_linked};

// First and last of row `i`, whatever record it is, of a block of n stops.
pub fn in_range_at(t: &[u64], i: usize, n: u64) -> bool
    requires { i * row_width Timetbls + row_width Timetbls ≤ length t.now }
    ensures { result ≡ in_range reach_of n (row_at (row_width Timetbls) t.now i) }
{
    let from = i * tables::BLOCK_WIDTH;
    let to = from + tables::BLOCK_WIDTH;
    legs::is_in_range(&t[from..to], n)
}

// The stop that the records of a kind have come to with a row, where they had come to `at`; 0 where the row does not follow the one before.
fn stop_after(row: &[u64], kind: u64, at: u64) -> u64
    requires { 5 ≤ length row.now }
    ensures { result ≡ stop_after kind at row.now }
{
    if row[iff::words::TAG] != kind {
        return at;
    }
    let s = legs::span_of(row);
    if s.first != at {
        return 0;
    }
    s.last
}

// The same of row `i`.
fn stop_after_at(t: &[u64], i: usize, kind: u64, at: u64) -> u64
    requires { i * row_width Timetbls + row_width Timetbls ≤ length t.now }
    ensures { result ≡ stop_after kind at (row_at (row_width Timetbls) t.now i) }
{
    let from = i * tables::BLOCK_WIDTH;
    let to = from + tables::BLOCK_WIDTH;
    stop_after(&t[from..to], kind, at)
}

// The records of this kind follow each other from stop 1 to stop n.
pub fn are_linked(t: &[u64], from: usize, to: usize, n: u64, kind: u64) -> bool
    requires { to * row_width Timetbls ≤ length t.now }
    ensures { result ≡ linked kind 1 n (block_between t.now from to) }
{
    let mut at: u64 = 1;
    for i in from..to {
        at = stop_after_at(t, i, kind, at);
        if at == 0 {
            return false;
        }
    }
    at == n
}

// All records are in range, and those of each kind follow each other: one pass, which nearly every block passes.
pub fn are_all_linked(t: &[u64], from: usize, to: usize, n: u64) -> bool
    requires { to * row_width Timetbls ≤ length t.now }
    ensures { result ≡ all_linked n (block_between t.now from to) }
{
    let mut number: u64 = 1;
    let mut validity: u64 = 1;
    let mut mode: u64 = 1;
    for i in from..to {
        let ranged = in_range_at(t, i, n);
        if !ranged {
            return false;
        }
        number = stop_after_at(t, i, iff::tags::PERCENT, number);
        if number == 0 {
            return false;
        }
        validity = stop_after_at(t, i, iff::tags::DASH, validity);
        if validity == 0 {
            return false;
        }
        mode = stop_after_at(t, i, iff::tags::AMPERSAND, mode);
        if mode == 0 {
            return false;
        }
    }
    if number != n {
        return false;
    }
    if validity != n {
        return false;
    }
    mode == n
}
