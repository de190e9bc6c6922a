// Marks of the rows of groups that came so far, by which nearly every new one is told to be new without a look at the others.
#![tactic(auto)]

ghost use Rattle.std.specs.Prelude.{◌≡◌, true, ◌&&◌, List, ℕ, ◌≤◌, length};
ghost use Rattle.iff.specs.Tables.{Row, row_width};
ghost use Rattle.iff.specs.declared.File.TheVariants.{Groups};
ghost use Rattle.iff.specs.declared.GroupFile.TheVariants.{Changes, Xchanges};
ghost use Rattle.iff_rules.specs.Unique.{fresh_key, fresh_in_group};
ghost use Rattle.group_marks.specs.Numbers.{stirred, row_number, number_in, Remembered, with_row};

use iff::{GroupFile, words};

// A number with a word mixed in.
fn stir(n: u64, word: u64) -> u64
    ensures { result ≡ stirred n word }
{
    n % 2147483647 * 1000003 + word % 2147483647
}

// A pair of services in its group.
fn pair_number(from: u64, row: &[u64]) -> u64
    requires { 3 ≤ length row.now }
    ensures { result ≡ row_number Changes from row.now }
{
    let first = stir(from, row[words::FROM_SERVICE]);
    stir(first, row[words::TO_SERVICE])
}

// Four keys and a footnote in their group.
fn exception_number(from: u64, row: &[u64]) -> u64
    requires { 7 ≤ length row.now }
    ensures { result ≡ row_number Xchanges from row.now }
{
    let first = stir(from, row[words::FROM_COMPANY]);
    let second = stir(first, row[words::FROM_MODE]);
    let third = stir(second, row[words::TO_COMPANY]);
    let fourth = stir(third, row[words::TO_MODE]);
    stir(fourth, row[words::EXCEPTION_FOOTNOTE])
}

// What no two rows of a group may share, where it is a matter of words that are the same.
fn row_number(file: GroupFile, from: u64, row: &[u64]) -> u64
    requires { length row.now ≡ row_width (Groups file) }
    ensures { result ≡ row_number file from row.now }
{
    match file {
        GroupFile::Timezone => 2147483647,
        GroupFile::Footnote => 2147483647,
        GroupFile::Changes => pair_number(from, row),
        GroupFile::Xfootnote => 2147483647,
        GroupFile::Xchanges => exception_number(from, row),
    }
}

// The number that is marked for a row: a `#` names a key.
fn number_in(file: GroupFile, from: usize, row: &[u64]) -> u64
    requires { length row.now ≡ row_width (Groups file) }
    ensures { result ≡ number_in file from row.now }
{
    if row[words::TAG] == iff::tags::HASH {
        return stir(row[words::NAMED], 0) % 2147483647;
    }
    row_number(file, from as u64, row)
}

// A row that is told to be new: a `#` to the keys before it, another to the rows of its group. One that is not may be new nevertheless.
pub fn is_told_new(file: GroupFile, from: usize, row: &[u64], marks: &[u8]) -> bool
    requires { length row.now ≡ row_width (Groups file) }
    ensures { (keys : List ℕ) (rows : List Row) → Remembered file keys from rows marks.now → result ≡ true
        → true ≡ (fresh_key (Groups file) keys row.now && fresh_in_group file rows row.now) }
{
    if marks.len() != 524288 {
        return false;
    }
    let number = number_in(file, from, row);
    marks::is_unmarked(marks, number)
}

// Marks a row.
pub fn remember(file: GroupFile, from: usize, row: &[u64], marks: &mut [u8])
    requires { length row.now ≡ row_width (Groups file) }
    ensures { marks.new ≡ with_row file from row.now marks.old }
{
    if marks.len() == 524288 {
        let number = number_in(file, from, row);
        marks::mark(marks, number);
    }
}
