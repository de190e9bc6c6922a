// Test 10 of document 01, "Legs", over the rows of a block in a table. Nearly every block has records that follow each other from the first stop to
// the last, and those cover each leg once: one pass tells, and no leg is marked. Only where they do not, the kinds are asked one by one, and each leg
// has a mark.
#![tactic(auto)]

ghost use Rattle.std.specs.Prelude.{◌≡◌, ◌-◌, ◌*◌, ◌≤◌, length};
ghost use Rattle.iff.specs.Lists.{all};
ghost use Rattle.iff.specs.Tables.{row_at, row_width};
ghost use Rattle.iff.specs.declared.File.TheVariants.{Timetbls};
ghost use Rattle.iff_rules.specs.Meaning.{most_stops};
ghost use Rattle.iff_rules.specs.Legs.{legs, reach_of, in_range, covered, of_kind};
ghost use Rattle.keys.specs.Blocks.{rows_between};
ghost use Rattle.legs.specs.Rows.{times};
ghost use Rattle.leg_marks.specs.Tally.{Tally};
ghost use Rattle.linked_legs.specs.Links.{block_between};
ghost use Rattle.row_legs.specs.Blocks.{BlockOfStops, RowMarkable, RangedBlock, rows_times};

// IN RANGE

// First and last of every record.
fn are_in_range(t: &[u64], from: usize, to: usize, n: u64) -> bool
    requires { to * row_width Timetbls ≤ length t.now }
    ensures { result ≡ all (in_range reach_of n) (block_between t.now from to) }
{
    for i in from..to {
        if !linked_legs::in_range_at(t, i, n) {
            return false;
        }
    }
    true
}

// MARKED

// Marks the legs of row `i`, if it is of this kind.
fn mark_at(t: &[u64], i: usize, n: u64, kind: u64, marks: &mut [u8]) -> bool
    requires { RowMarkable t.now i n kind (length marks.old) }
    ensures { Tally 1 n (λ k. times kind k (row_at (row_width Timetbls) t.now i)) marks.old marks.new result }
{
    let from = i * tables::BLOCK_WIDTH;
    let to = from + tables::BLOCK_WIDTH;
    legs::mark_row(&t[from..to], n, kind, marks)
}

// The same of every row.
fn mark_rows(t: &[u64], from: usize, to: usize, n: u64, kind: u64, marks: &mut [u8]) -> bool
    requires { RangedBlock t.now from to n kind (length marks.old) }
    ensures { Tally 1 n (rows_times kind (block_between t.now from to)) marks.old marks.new result }
{
    for i in from..to {
        if !mark_at(t, i, n, kind, marks) {
            return false;
        }
    }
    true
}

// Every leg has one mark after the marks of this kind's records.
fn are_marked_once(t: &[u64], from: usize, to: usize, n: u64, kind: u64) -> bool
    requires { RangedBlock t.now from to n kind most_stops }
    ensures { result ≡ covered (n - 1) (of_kind kind (block_between t.now from to)) }
{
    let mut marks = [0u8; leg_marks::MARKS];
    if !mark_rows(t, from, to, n, kind, &mut marks) {
        return false;
    }
    let last_leg = leg_marks::legs_of(n as usize);
    leg_marks::all_marked(&marks, last_leg)
}

// THE TEST

// Every leg lies in exactly one record of this kind.
fn is_covered(t: &[u64], from: usize, to: usize, n: u64, kind: u64) -> bool
    requires { RangedBlock t.now from to n kind most_stops }
    ensures { result ≡ covered (n - 1) (of_kind kind (block_between t.now from to)) }
{
    if linked_legs::are_linked(t, from, to, n, kind) {
        return true;
    }
    are_marked_once(t, from, to, n, kind)
}

// Test 10, of the rows of a block of n stops.
pub fn are_right(t: &[u64], from: usize, to: usize, n: u64) -> bool
    requires { BlockOfStops t.now from to n }
    ensures { result ≡ legs reach_of (rows_between (row_width Timetbls) t.now from to) }
{
    if linked_legs::are_all_linked(t, from, to, n) {
        return true;
    }
    if !are_in_range(t, from, to, n) {
        return false;
    }
    if !is_covered(t, from, to, n, iff::tags::PERCENT) {
        return false;
    }
    if !is_covered(t, from, to, n, iff::tags::DASH) {
        return false;
    }
    is_covered(t, from, to, n, iff::tags::AMPERSAND)
}
