// A first line's row is sound: as DELIVERY's on what is kept, with the derived words that belong there.
#![tactic(auto)]

ghost use Rattle.std.specs.Prelude.{◌≡◌, List, ◌≤◌, eqb, length};
ghost use Rattle.iff.specs.Tables.{Row, row_width, keys_of, rising};
ghost use Rattle.iff_rules.specs.Rows.{flag};
ghost use Rattle.iff_desk.specs.Sound.{sound_first};
ghost use Rattle.sound_firsts.specs.Behind.{behind_right};

use iff::{Edition, File, Form, Record, tags, words};

// The columns of a first line are the same in every form.
const ANY_FORM: Form = Form {
    days: 0,
    edition: Edition::Iff424,
};

// A word says this flag.
fn is_flag(word: u64, b: bool) -> bool
    ensures { result ≡ eqb word (flag b) }
{
    if b {
        return word == 1;
    }
    word == 0
}

// The words behind the flag: in TIMETBLS the first line is line 1 of its block, and the rest of every row is zero.
fn is_right_behind(file: File, row: &[u64]) -> bool
    requires { length row.now ≡ row_width file }
    ensures { result ≡ behind_right file row.now }
{
    match file {
        File::Delivery => tables::zero_from(row, words::RISES + 1),
        File::Rows(_) => tables::zero_from(row, words::RISES + 1),
        File::Groups(_) => tables::zero_from(row, words::RISES + 1),
        File::Timetbls => {
            if row[words::LINE_NUMBER] != 1 {
                return false;
            }
            tables::zero_from(row, words::LINE_NUMBER + 1)
        }
    }
}

// The row of a file's first line, by DELIVERY's and by whether the keys of the rows behind it rise. What stands before the flag is kept.
pub fn is_first_sound(file: File, row: &[u64], delivery: &[u64], rises: bool) -> bool
    requires { (length row.now ≡ row_width file) × (5 ≤ length delivery.now) }
    ensures { (later : List Row) → rises ≡ rising (keys_of file later)
        → result ≡ sound_first file delivery.now row.now later }
{
    if row[words::TAG] != tags::AT {
        return false;
    }
    if !shapes::is_shaped(Record::FirstRecord, ANY_FORM, &row[..words::RISES]) {
        return false;
    }
    if !meanings::first_means(row) {
        return false;
    }
    if row[..words::RISES] != delivery[..words::RISES] {
        return false;
    }
    if !is_flag(row[words::RISES], rises) {
        return false;
    }
    is_right_behind(file, row)
}
