// One first line: its tests, and its row.
#![tactic(auto)]

ghost use Rattle.std.specs.Prelude.{◌≡◌, true};
ghost use Rattle.iff.specs.Lists.{same};
ghost use Rattle.iff.specs.declared.File.TheVariants.{Delivery};
ghost use Rattle.iff_rules.specs.Rows.{flag, first_row_of};
ghost use Rattle.iff_rules.specs.Meaning.{first_meaning};
ghost use Rattle.iff_rules.specs.Load.{first_line_test};
ghost use Rattle.records.specs.Layouts.{line_of};
ghost use Rattle.reading.specs.Reading.{FirstLegible, FirstRow};

use iff::{Edition, File, Form, Reason, Record, Test};

// The columns of a first line are the same in every form.
const ANY_FORM: Form = Form {
    days: 0,
    edition: Edition::Iff424,
};

// The days that a first line names. Its layout and digits are right.
fn days_right(line: &[u8]) -> bool
    requires { FirstLegible line.now }
    ensures { result ≡ first_meaning (first_row_of Delivery true (line_of line.now true)) }
{
    let mut row = [0u64; 6];
    record_lines::put_words(
        Record::FirstRecord,
        iff::tags::AT,
        ANY_FORM,
        0,
        line,
        &mut row,
    );
    meanings::first_means(&row)
}

// A first line: 7 at once where it does not begin `@`, then layout, then 6 where it differs from DELIVERY's, then its values.
pub fn first_line(line: &[u8], ended: bool, header: &[u8]) -> Test
    ensures { result ≡ first_line_test (same line.now header.now) (line_of line.now ended) }
{
    if text::first_byte(line) != b'@' {
        return Err(Reason::Order);
    }
    if !record_lines::is_laid(Record::FirstRecord, ANY_FORM, line, ended) {
        return Err(Reason::Layout);
    }
    if !text::same_bytes(line, header) {
        return Err(Reason::FirstLine);
    }
    if !record_lines::is_readable(Record::FirstRecord, ANY_FORM, line) {
        return Err(Reason::Value);
    }
    if !days_right(line) {
        return Err(Reason::Value);
    }
    Ok(())
}

// A flag as a word.
pub fn flag_of(b: bool) -> u64
    ensures { result ≡ flag b }
{
    if b { 1 } else { 0 }
}

// The first line's row, with whether the keys after it rise; in TIMETBLS it has the line's number too.
pub fn put_first(file: File, rises: bool, line: &[u8], row: &mut [u64])
    requires { FirstRow file line.now row.old }
    ensures { row.new ≡ first_row_of file rises (line_of line.now true) }
{
    record_lines::put_words(Record::FirstRecord, iff::tags::AT, ANY_FORM, 0, line, row);
    row[iff::words::RISES] = flag_of(rises);
    match file {
        File::Delivery => {}
        File::Rows(_) => {}
        File::Groups(_) => {}
        File::Timetbls => {
            row[iff::words::LINE_NUMBER] = 1;
        }
    }
}
