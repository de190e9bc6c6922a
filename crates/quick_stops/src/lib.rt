// The records of a TIMETBLS block that name a station, told to be right where they stand, and the words that they leave: as `quick_records` has it.
#![tactic(auto)]

ghost use Rattle.std.specs.Prelude.{true, ◌&&◌, ◌<◌, ◌≤◌, ltb, length};
ghost use Rattle.iff.specs.Columns.{stop_fields, interval_fields, passed_fields};
ghost use Rattle.iff.specs.Times.{is_time, interval as is_interval};
ghost use Rattle.iff.specs.declared.RowFile.TheVariants.{Stations};
ghost use Rattle.iff.specs.declared.File.TheVariants.{Rows};
ghost use Rattle.iff_rules.specs.Meaning.{most_stops};
ghost use Rattle.quick_words.specs.Told.{Tested};

use iff::{File, RowFile, limits};
use quick_words::{Words, untold};

// `>`, `.` and `<`
pub fn plain_stop(
    text: &[u8],
    at: usize,
    n: u64,
    stops: u64,
    used: usize,
    stations: &[u64],
    places: &[u32],
) -> Words
    requires { at ≤ length text.now }
    ensures { 0 < result.width
        → Tested text.now at stop_fields n (ltb stops most_stops && is_time result.two) (Rows Stations) used stations.now result.one result }
{
    if !quick_lines::looks(text, at, b"lccccccc,nnnn") {
        return untold();
    }
    let end = at + 13;
    let line = &text[at..end];
    if fields::all_blank(&line[1..8]) {
        return untold();
    }
    let station = text::code(&line[1..8]);
    let time = text::number(&line[9..13]);
    if limits::MOST_STOPS <= stops {
        return untold();
    }
    if !clock::is_time(time) {
        return untold();
    }
    let Some(_) = key_places::found_by_place(
        File::Rows(RowFile::Stations),
        stations,
        used,
        places,
        station,
    ) else {
        return untold();
    };
    Words {
        width: 13,
        one: station,
        two: time,
        three: 0,
        four: 0,
    }
}

// `+`
pub fn interval(
    text: &[u8],
    at: usize,
    n: u64,
    stops: u64,
    used: usize,
    stations: &[u64],
    places: &[u32],
) -> Words
    requires { at ≤ length text.now }
    ensures { 0 < result.width
        → Tested text.now at interval_fields n (ltb stops most_stops && is_interval result.two result.three) (Rows Stations) used stations.now result.one result }
{
    if !quick_lines::looks(text, at, b"lccccccc,nnnn,nnnn") {
        return untold();
    }
    let end = at + 18;
    let line = &text[at..end];
    if fields::all_blank(&line[1..8]) {
        return untold();
    }
    let station = text::code(&line[1..8]);
    let arrival = text::number(&line[9..13]);
    let departure = text::number(&line[14..18]);
    if limits::MOST_STOPS <= stops {
        return untold();
    }
    if !clock::is_interval(arrival, departure) {
        return untold();
    }
    let Some(_) = key_places::found_by_place(
        File::Rows(RowFile::Stations),
        stations,
        used,
        places,
        station,
    ) else {
        return untold();
    };
    Words {
        width: 18,
        one: station,
        two: arrival,
        three: departure,
        four: 0,
    }
}

// `;`
pub fn passed(
    text: &[u8],
    at: usize,
    n: u64,
    used: usize,
    stations: &[u64],
    places: &[u32],
) -> Words
    requires { at ≤ length text.now }
    ensures { 0 < result.width
        → Tested text.now at passed_fields n true (Rows Stations) used stations.now result.one result }
{
    if !quick_lines::looks(text, at, b"lccccccc") {
        return untold();
    }
    let end = at + 8;
    let line = &text[at..end];
    if fields::all_blank(&line[1..8]) {
        return untold();
    }
    let station = text::code(&line[1..8]);
    let Some(_) = key_places::found_by_place(
        File::Rows(RowFile::Stations),
        stations,
        used,
        places,
        station,
    ) else {
        return untold();
    };
    Words {
        width: 8,
        one: station,
        two: 0,
        three: 0,
        four: 0,
    }
}
