// A service's rows, a part of TIMETBLS: how many stops they have, a stop by its number, and the record of a kind that a leg lies in.
#![tactic(auto)]

ghost use Rattle.std.specs.Prelude.{◌≡◌, ◌+◌, ◌-◌, ◌*◌, ◌≤◌, length};
ghost use Rattle.iff.specs.Tables.{row_width, row_at, tag};
ghost use Rattle.iff.specs.Words.{stop_count};
ghost use Rattle.iff.specs.declared.File.TheVariants.{Timetbls};
ghost use Rattle.iff_rules.specs.Order.{is_stop};
ghost use Rattle.iff_rules.specs.Rows.{first_of};
ghost use Rattle.iff_rules.specs.Legs.{stops_of};
ghost use Rattle.iff_desk.specs.Store.{stop_at, record_on};
ghost use Rattle.store.specs.Found.{rows_of, Inside, RowFor};
ghost use Rattle.service_rows.specs.Lies.{lies_in};

use store::Part;

fn is_stop_at(t: &[u64], i: usize) -> bool
    requires { i * row_width Timetbls + row_width Timetbls ≤ length t.now }
    ensures { result ≡ is_stop (tag (row_at (row_width Timetbls) t.now i)) }
{
    let letter = tables::word_at(t, tables::BLOCK_WIDTH, i, iff::words::TAG);
    order::is_stop(letter)
}

// How many stops they have.
pub fn count_stops(t: &[u64], part: Part) -> u64
    requires { Inside (row_width Timetbls) t.now part }
    ensures { result ≡ stops_of (rows_of (row_width Timetbls) t.now part) }
{
    (part.from..part.to).filter(|i| is_stop_at(t, *i)).count() as u64
}

// As the first of them tells, the `#` row of a sound block.
pub fn stops_told(t: &[u64], part: Part) -> u64
    requires { Inside (row_width Timetbls) t.now part
        × (stops_of (rows_of (row_width Timetbls) t.now part) ≡ stop_count (first_of (rows_of (row_width Timetbls) t.now part))) }
    ensures { result ≡ stops_of (rows_of (row_width Timetbls) t.now part) }
{
    let from = part.from;
    if part.to <= from {
        return 0;
    }
    tables::word_at(t, tables::BLOCK_WIDTH, from, iff::words::STOP_COUNT)
}

// Stop `number`, from 1.
pub fn stop_row(t: &[u64], part: Part, number: u64) -> Option<usize>
    requires { Inside (row_width Timetbls) t.now part }
    ensures { RowFor (row_width Timetbls) t.now (stop_at (rows_of (row_width Timetbls) t.now part) number) result }
{
    let mut before = one_less(number);
    for i in part.from..part.to {
        if is_stop_at(t, i) {
            if before == 0 {
                return Some(i);
            }
            before -= 1;
        }
    }
    None
}

fn one_less(n: u64) -> u64
    ensures { result ≡ n - 1 }
{
    if n == 0 { 0 } else { n - 1 }
}

// Row `i` is of a kind, and a leg lies in it.
fn lies_at(t: &[u64], i: usize, kind: u64, leg: u64) -> bool
    requires { i * row_width Timetbls + row_width Timetbls ≤ length t.now }
    ensures { result ≡ lies_in kind leg (row_at (row_width Timetbls) t.now i) }
{
    if tables::word_at(t, tables::BLOCK_WIDTH, i, iff::words::TAG) != kind {
        return false;
    }
    let from = i * tables::BLOCK_WIDTH;
    let to = from + tables::BLOCK_WIDTH;
    let span = legs::span_of(&t[from..to]);
    if leg < span.first {
        return false;
    }
    leg < span.last
}

// The record of a kind that a leg lies in.
pub fn record_row(t: &[u64], part: Part, kind: u64, leg: u64) -> Option<usize>
    requires { Inside (row_width Timetbls) t.now part }
    ensures { RowFor (row_width Timetbls) t.now (record_on kind leg (rows_of (row_width Timetbls) t.now part)) result }
{
    for i in part.from..part.to {
        if lies_at(t, i, kind, leg) {
            return Some(i);
        }
    }
    None
}
