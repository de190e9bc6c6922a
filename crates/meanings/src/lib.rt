// What a row's numbers must be.
#![tactic(auto)]

ghost use Rattle.std.specs.Prelude.{◌≡◌, ◌≤◌, length};
ghost use Rattle.iff.specs.Tables.{row_width};
ghost use Rattle.iff.specs.declared.File.TheVariants.{Rows, Groups};
ghost use Rattle.iff.specs.declared.RowFile.TheVariants.{Company, Country};
ghost use Rattle.iff.specs.declared.GroupFile.TheVariants.{Timezone, Changes};
ghost use Rattle.iff_rules.specs.Meaning.{first_meaning, row_meaning, group_meaning, block_meaning};
ghost use Rattle.meanings.specs.Times.{times_right};

use iff::{GroupFile, RowFile};

// Two days in turn, 800 days at most.
pub fn first_means(row: &[u64]) -> bool
    requires { 5 ≤ length row.now }
    ensures { result ≡ first_meaning row.now }
{
    let first = row[iff::words::FIRST_DAY];
    let last = row[iff::words::LAST_DAY];
    if !calendar::is_period(first, last) {
        return false;
    }
    calendar::span(first, last) <= iff::limits::MOST_DAYS
}

// FILES OF ROWS

// Number 1 or more, and a day turn.
fn company_means(row: &[u64]) -> bool
    requires { 5 ≤ length row.now }
    ensures { result ≡ row_meaning Company 0 row.now }
{
    if row[iff::words::COMPANY_NUMBER] < 1 {
        return false;
    }
    clock::is_turn(row[iff::words::DAY_TURN])
}

// Inland is 0 or 1.
fn country_means(row: &[u64]) -> bool
    requires { 5 ≤ length row.now }
    ensures { result ≡ row_meaning Country 0 row.now }
{
    row[iff::words::INLAND] <= 1
}

// A row's numbers, after `count` rows of its file: 64 modes at most.
pub fn row_means(file: RowFile, count: usize, row: &[u64]) -> bool
    requires { length row.now ≡ row_width (Rows file) }
    ensures { result ≡ row_meaning file count row.now }
{
    match file {
        RowFile::Company => company_means(row),
        RowFile::Country => country_means(row),
        RowFile::Trnsmode => count < iff::limits::MOST_MODES,
        RowFile::Stations => true,
    }
}

// FILES OF GROUPS

// A period's days in turn.
fn zone_means(row: &[u64]) -> bool
    requires { 5 ≤ length row.now }
    ensures { result ≡ group_meaning Timezone row.now }
{
    if row[iff::words::TAG] == iff::tags::HASH {
        return true;
    }
    calendar::is_period(row[iff::words::PERIOD_FIRST], row[iff::words::PERIOD_LAST])
}

// Possibility is 00, 01 or 02.
fn pair_means(row: &[u64]) -> bool
    requires { 5 ≤ length row.now }
    ensures { result ≡ group_meaning Changes row.now }
{
    if row[iff::words::TAG] == iff::tags::HASH {
        return true;
    }
    row[iff::words::POSSIBILITY] <= 2
}

// A row's numbers in a group.
pub fn group_means(file: GroupFile, row: &[u64]) -> bool
    requires { length row.now ≡ row_width (Groups file) }
    ensures { result ≡ group_meaning file row.now }
{
    match file {
        GroupFile::Timezone => zone_means(row),
        GroupFile::Footnote => true,
        GroupFile::Changes => pair_means(row),
        GroupFile::Xfootnote => true,
        GroupFile::Xchanges => true,
    }
}

// BLOCKS

// A stop's time, or two times where it is an interval.
fn stop_means(row: &[u64]) -> bool
    requires { 5 ≤ length row.now }
    ensures { result ≡ times_right row.now }
{
    if row[iff::words::TAG] == iff::tags::PLUS {
        return clock::is_interval(row[iff::words::ARRIVAL], row[iff::words::DEPARTURE]);
    }
    clock::is_time(row[iff::words::STOP_TIME])
}

// A record of a block, after some stops: 998 stops at most, and their times.
pub fn block_means(stops: usize, row: &[u64]) -> bool
    requires { 5 ≤ length row.now }
    ensures { result ≡ block_meaning stops row.now }
{
    if !order::is_stop(row[iff::words::TAG]) {
        return true;
    }
    if iff::limits::MOST_STOPS as usize <= stops {
        return false;
    }
    stop_means(row)
}
