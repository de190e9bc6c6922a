// The file lengths that tables imply: the lines that a table's rows stand for make no longer a file than test 1 lets pass.
#![tactic(auto)]

ghost use Rattle.std.specs.Prelude.{◌≡◌, ℕ, ◌+◌, ◌*◌, ◌≤◌, leb, length};
ghost use Rattle.iff.specs.Lists.{total};
ghost use Rattle.iff.specs.Files.{limit};
ghost use Rattle.iff.specs.Columns.{record_fields, group_record, fields_of, picture};
ghost use Rattle.iff.specs.Tables.{row_width};
ghost use Rattle.iff_desk.specs.Sound.{row_size, first_size};
ghost use Rattle.keys.specs.Blocks.{rows_between};
ghost use Rattle.row_sizes.specs.Few.{FewLines};

// The bytes of a first line, with its CR LF, and what a file may have behind it.
const FIRST_LINE: usize = 60;

const ROOM: usize = iff::limits::LONGEST_FILE - FIRST_LINE;

// The longest record of a TIMETBLS block, `%`.
const LONGEST_IN_BLOCK: usize = 57;

// LINES

// A record's length without CR LF.
pub fn record_length(record: iff::Record, form: iff::Form) -> usize
    ensures { result ≡ length (picture (record_fields form «record»)) }
{
    let s = records::spans_of(record);
    let to = s.1;
    if to == 0 {
        return form.days;
    }
    to - s.0
}

fn larger(a: usize, b: usize) -> usize
    ensures { (a ≤ result) × (b ≤ result) }
{
    if a < b { b } else { a }
}

// No line of a group is longer: neither its `#` nor what follows it.
fn longest_in_group(file: iff::GroupFile, form: iff::Form) -> usize
    ensures { (x : ℕ) → length (picture (record_fields form (group_record file x))) ≤ result }
{
    let head = record_length(records::group_record(file, b'#'), form);
    let other = record_length(records::group_record(file, 0), form);
    larger(head, other)
}

// No line of a file is longer.
fn longest_line(file: iff::File, form: iff::Form) -> usize
    ensures { (x : ℕ) → length (picture (fields_of form file x)) ≤ result }
{
    match file {
        iff::File::Delivery => record_length(iff::Record::FirstRecord, form),
        iff::File::Rows(f) => record_length(records::row_record(f), form),
        iff::File::Groups(f) => longest_in_group(f, form),
        iff::File::Timetbls => LONGEST_IN_BLOCK,
    }
}

// FILES

// So few rows that they fit whatever they are. Most tables are, and no row of theirs is looked at.
fn are_few(file: iff::File, form: iff::Form, used: usize) -> bool
    ensures { FewLines form file used result }
{
    let longest = longest_line(file, form);
    if iff::limits::LONGEST_FILE < longest {
        return false;
    }
    used <= ROOM / (longest + 2)
}

// The same row by row: what is left of the limit after each, up to the first that does not fit.
fn fit_one_by_one(file: iff::File, form: iff::Form, t: &[u64], used: usize) -> bool
    requires { used * row_width file ≤ length t.now }
    ensures { result ≡ leb (first_size + total (row_size form file) (rows_between (row_width file) t.now 1 used)) limit }
{
    let w = tables::row_width(file);
    let mut left = ROOM;
    for i in 1..used {
        let tag = tables::word_at(t, w, i, iff::words::TAG);
        let n = record_length(shapes::record_of(file, tag), form);
        if left < n {
            return false;
        }
        left -= n;
        if left < 2 {
            return false;
        }
        left -= 2;
    }
    true
}

// A first line, and the lines of the rows behind it up to row `used`, are no longer than a file may be.
pub fn fits_limit(file: iff::File, form: iff::Form, t: &[u64], used: usize) -> bool
    requires { used * row_width file ≤ length t.now }
    ensures { result ≡ leb (first_size + total (row_size form file) (rows_between (row_width file) t.now 1 used)) limit }
{
    if are_few(file, form, used) {
        return true;
    }
    fit_one_by_one(file, form, t, used)
}
