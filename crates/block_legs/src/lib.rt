// Test 10 of document 01, "Legs", on the text of a block: the rules over rows (`legs`), asked of each line's record.
#![tactic(auto)]

ghost use Rattle.std.specs.Prelude.{◌≡◌, true, ◌&&◌, ◌-◌, length};
ghost use Rattle.iff.specs.Lists.{all};
ghost use Rattle.iff.specs.Lines.{lines};
ghost use Rattle.iff_rules.specs.Meaning.{most_stops};
ghost use Rattle.iff_rules.specs.Legs.{legs, reach_of, in_range};
ghost use Rattle.iff_rules.specs.Rows.{block_rows, as_block};
ghost use Rattle.records.specs.Layouts.{legible};
ghost use Rattle.legs.specs.Rows.{names_stops, times};
ghost use Rattle.leg_marks.specs.Once.{once_to};
ghost use Rattle.leg_marks.specs.Tally.{Tally};
ghost use Rattle.block_legs.specs.Sight.{record_width, CanBePut, LegibleBlock, line_row, line_in_range, lines_times, LineMarkable, AllMarkable};

// The words of a row of TIMETBLS but the last, which is the line's number in its block.
const RECORD_WORDS: usize = 6;

// The row of a line's record, in a block of n stops.
fn line_row(line: &[u8], form: iff::Form, n: u64, row: &mut [u64])
    requires { CanBePut form line.now × (length row.old ≡ record_width) }
    ensures { row.new ≡ line_row form n line.now }
{
    let letter = text::first_byte(line);
    let kind = records::block_record(letter);
    record_lines::put_words(kind, letter as u64, form, n, line, row);
}

// A record that names a first and a last stop. The others, which are most of a block's, need no row here.
fn names_stops(letter: u8) -> bool
    ensures { result ≡ names_stops letter }
{
    match letter {
        b'%' => true,
        b'-' => true,
        b'&' => true,
        b'*' => true,
        _ => false,
    }
}

fn line_in_range(line: &[u8], form: iff::Form, n: u64) -> bool
    requires { CanBePut form line.now }
    ensures { result ≡ in_range reach_of n (line_row form n line.now) }
{
    if !names_stops(text::first_byte(line)) {
        return true;
    }
    let mut row = [0u64; RECORD_WORDS];
    line_row(line, form, n, &mut row);
    legs::is_in_range(&row, n)
}

// First and last of every record.
fn are_in_range(block: &[u8], form: iff::Form, n: u64) -> bool
    requires { all (legible form) (lines block.now) ≡ true }
    ensures { result ≡ all (line_in_range form n) (lines block.now) }
{
    for line in text_lines::lines_of(block) {
        if !line_in_range(line.body, form, n) {
            return false;
        }
    }
    true
}

// Marks the legs of a line's record, if it is of this kind.
fn mark_line(line: &[u8], form: iff::Form, n: u64, kind: u64, marks: &mut [u8]) -> bool
    requires { LineMarkable form line.now n kind (length marks.old) }
    ensures { Tally 1 n (λ k. times kind k (line_row form n line.now)) marks.old marks.new result }
{
    if text::first_byte(line) as u64 != kind {
        return true;
    }
    let mut row = [0u64; RECORD_WORDS];
    line_row(line, form, n, &mut row);
    legs::mark_row(&row, n, kind, marks)
}

// The same of every line.
fn mark_lines(block: &[u8], form: iff::Form, n: u64, kind: u64, marks: &mut [u8]) -> bool
    requires { AllMarkable form block.now n kind (length marks.old) }
    ensures { Tally 1 n (lines_times form n kind (lines block.now)) marks.old marks.new result }
{
    for line in text_lines::lines_of(block) {
        if !mark_line(line.body, form, n, kind, marks) {
            return false;
        }
    }
    true
}

// Every leg lies in exactly one record of this kind.
fn is_covered(block: &[u8], form: iff::Form, n: u64, kind: u64) -> bool
    requires { AllMarkable form block.now n kind most_stops }
    ensures { result ≡ once_to (n - 1) (lines_times form n kind (lines block.now)) }
{
    let mut marks = [0u8; leg_marks::MARKS];
    if !mark_lines(block, form, n, kind, &mut marks) {
        return false;
    }
    let last_leg = leg_marks::legs_of(n as usize);
    leg_marks::all_marked(&marks, last_leg)
}

fn all_three(a: bool, b: bool, c: bool) -> bool
    ensures { result ≡ (a && (b && c)) }
{
    if !a {
        return false;
    }
    if !b {
        return false;
    }
    c
}

// Test 10, of the text of a block of n stops whose every line is legible.
pub fn are_right(block: &[u8], form: iff::Form, n: u64) -> bool
    requires { LegibleBlock form block.now n }
    ensures { result ≡ legs reach_of (block_rows form (as_block block.now)) }
{
    if !are_in_range(block, form, n) {
        return false;
    }
    all_three(
        is_covered(block, form, n, iff::tags::PERCENT),
        is_covered(block, form, n, iff::tags::DASH),
        is_covered(block, form, n, iff::tags::AMPERSAND),
    )
}
