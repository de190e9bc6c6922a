// The columns of the records: their pictures and fields, and which record a line is.
// The columns are data here as they are in the crate `iff`: all pictures, all fields, and for each record its part of both. What is done with
// a line by them is in the crate `record_lines`.
#![tactic(auto)]

ghost use Rattle.std.specs.Prelude.{◌≡◌, ◌-◌, ◌≤◌, take, drop};
ghost use Rattle.iff.specs.Bytes.{hash};
ghost use Rattle.iff.specs.Columns.{on, row_record, group_record, block_record};
ghost use Rattle.records.specs.Layouts.{pictures, spans_of};
ghost use Rattle.records.specs.Facts.{EntryOf, LooksBy};

// The columns of every record but the vector, a mark for each: `l` the letter, `n` a number, `a` a company or the wildcard, `c` a code, `t` text,
// `u` a column that is not read, and a comma for a gap.
const PICTURES: [u8; 511] = *b"lnnn,nnnnnnnn,nnnnnnnn,nnnn,tttttttttttttttttttttttttttttt\
nnn,tttttttttt,tttttttttttttttttttttttttttttt,nnnn\
cccc,n,tttttttttttttttttttttttttttttt\
cccc,tttttttttttttttttttttttttttttt\
lnnnn\
lnn,nnnnnnnn,nnnnnnnn\
n,ccccccc,nn,uu,cccc,nnnn,uu,uuuuuu,uuuuuu,tttttttttttttttttttttttttttttt\
lnnnnn\
lnnnnnnnn\
lnnn,nnnnn,ttttttt,nnn,nnn,tttttttttttttttttttttttttttttt\
lnnnnn,nnn,nnn\
lcccc,nnn,nnn\
lcccc,nnn,nnn,nnnnn\
lccccccc,nnnn\
lccccccc,nnnn,nnnn\
lccccccc\
lttttt,ttttt,nnnnn\
lccccccc\
lnnnnnnnn,nnnnnnnn,nn\
laaa,cccc,aaa,cccc,nnn,nnnnn";

// A record's part of the pictures and of the fields: where its columns begin and end, and its fields. The vector's is empty.
#[derive(Clone, Copy)]
pub struct Spans(pub usize, pub usize, pub usize, pub usize);

// One field: its first column, counted from 1, its width and its class.
#[derive(Clone, Copy)]
pub struct Entry(pub usize, pub usize, pub u8);

pub fn spans_of(record: iff::Record) -> Spans
    ensures { result ≡ spans_of «record» }
{
    match record {
        iff::Record::FirstRecord => Spans(0, 58, 0, 4),
        iff::Record::CompanyRow => Spans(58, 108, 4, 6),
        iff::Record::CountryRow => Spans(108, 145, 6, 8),
        iff::Record::ModeRow => Spans(145, 180, 8, 9),
        iff::Record::ZoneHead => Spans(180, 185, 9, 10),
        iff::Record::ZonePeriod => Spans(185, 206, 10, 13),
        iff::Record::StationRow => Spans(206, 279, 13, 18),
        iff::Record::FootnoteHead => Spans(279, 285, 18, 19),
        iff::Record::FootnoteVector => Spans(0, 0, 0, 0),
        iff::Record::ServiceHead => Spans(285, 294, 19, 20),
        iff::Record::TrainNumber => Spans(294, 351, 20, 24),
        iff::Record::Validity => Spans(351, 365, 24, 27),
        iff::Record::Transport => Spans(365, 378, 27, 30),
        iff::Record::Attribute => Spans(378, 397, 30, 34),
        iff::Record::PlainStop => Spans(397, 410, 34, 36),
        iff::Record::Interval => Spans(410, 428, 36, 39),
        iff::Record::Passed => Spans(428, 436, 39, 40),
        iff::Record::Platform => Spans(436, 454, 40, 41),
        iff::Record::ChangeHead => Spans(454, 462, 41, 42),
        iff::Record::ChangePair => Spans(462, 483, 42, 45),
        iff::Record::ChangeException => Spans(483, 511, 45, 51),
    }
}

// Field `j` of those that leave a word in a row, in the order of the pictures; beyond the last, an empty one. The classes: `n` a number,
// `s` a stop's number, `a` a company or the wildcard, `c` a code. A `match` and no constant array, since the compiler makes a table of it that
// stands in the program, where an array is put together at every look.
pub fn entry_at(j: usize) -> Entry
    ensures { EntryOf j result }
{
    match j {
        // the first line: company, first day, last day, version
        0 => Entry(2, 3, b'n'),
        1 => Entry(6, 8, b'n'),
        2 => Entry(15, 8, b'n'),
        3 => Entry(24, 4, b'n'),
        // company: number, day turn
        4 => Entry(1, 3, b'n'),
        5 => Entry(47, 4, b'n'),
        // country: code, inland
        6 => Entry(1, 4, b'c'),
        7 => Entry(6, 1, b'n'),
        // mode
        8 => Entry(1, 4, b'c'),
        // zone
        9 => Entry(2, 4, b'n'),
        // zone period: hours, first day, last day
        10 => Entry(2, 2, b'n'),
        11 => Entry(5, 8, b'n'),
        12 => Entry(14, 8, b'n'),
        // station: change flag, short name, change time, country, zone
        13 => Entry(1, 1, b'n'),
        14 => Entry(3, 7, b'c'),
        15 => Entry(11, 2, b'n'),
        16 => Entry(17, 4, b'c'),
        17 => Entry(22, 4, b'n'),
        // footnote
        18 => Entry(2, 5, b'n'),
        // service
        19 => Entry(2, 8, b'n'),
        // train number: company, number, first stop, last stop
        20 => Entry(2, 3, b'n'),
        21 => Entry(6, 5, b'n'),
        22 => Entry(20, 3, b's'),
        23 => Entry(24, 3, b's'),
        // validity: footnote, first stop, last stop
        24 => Entry(2, 5, b'n'),
        25 => Entry(8, 3, b's'),
        26 => Entry(12, 3, b's'),
        // transport: mode, first stop, last stop
        27 => Entry(2, 4, b'c'),
        28 => Entry(7, 3, b's'),
        29 => Entry(11, 3, b's'),
        // attribute: code, first stop, last stop, footnote
        30 => Entry(2, 4, b'c'),
        31 => Entry(7, 3, b's'),
        32 => Entry(11, 3, b's'),
        33 => Entry(15, 5, b'n'),
        // stop: station, time
        34 => Entry(2, 7, b'c'),
        35 => Entry(10, 4, b'n'),
        // interval: station, arrival, departure
        36 => Entry(2, 7, b'c'),
        37 => Entry(10, 4, b'n'),
        38 => Entry(15, 4, b'n'),
        // passed station
        39 => Entry(2, 7, b'c'),
        // platform: footnote
        40 => Entry(14, 5, b'n'),
        // change: station
        41 => Entry(2, 7, b'c'),
        // change of a pair: from service, to service, possibility
        42 => Entry(2, 8, b'n'),
        43 => Entry(11, 8, b'n'),
        44 => Entry(20, 2, b'n'),
        // exception: from company, from mode, to company, to mode, time, footnote
        45 => Entry(2, 3, b'a'),
        46 => Entry(6, 4, b'c'),
        47 => Entry(11, 3, b'a'),
        48 => Entry(15, 4, b'c'),
        49 => Entry(20, 3, b'n'),
        50 => Entry(24, 5, b'n'),
        _ => Entry(1, 0, b'c'),
    }
}

// Records: by file, and by the letter of a line after the first.

pub fn row_record(file: iff::RowFile) -> iff::Record
    ensures { result ≡ row_record file }
{
    match file {
        iff::RowFile::Company => iff::Record::CompanyRow,
        iff::RowFile::Country => iff::Record::CountryRow,
        iff::RowFile::Trnsmode => iff::Record::ModeRow,
        iff::RowFile::Stations => iff::Record::StationRow,
    }
}

// A group's `#`, or what follows it.
fn headed(letter: u8, head: iff::Record, other: iff::Record) -> iff::Record
    ensures { result ≡ on letter hash head other }
{
    if letter == b'#' { head } else { other }
}

pub fn group_record(file: iff::GroupFile, letter: u8) -> iff::Record
    ensures { result ≡ group_record file letter }
{
    match file {
        iff::GroupFile::Timezone => headed(letter, iff::Record::ZoneHead, iff::Record::ZonePeriod),
        iff::GroupFile::Footnote => headed(
            letter,
            iff::Record::FootnoteHead,
            iff::Record::FootnoteVector,
        ),
        iff::GroupFile::Changes => headed(letter, iff::Record::ChangeHead, iff::Record::ChangePair),
        iff::GroupFile::Xfootnote => headed(
            letter,
            iff::Record::FootnoteHead,
            iff::Record::FootnoteVector,
        ),
        iff::GroupFile::Xchanges => headed(
            letter,
            iff::Record::ChangeHead,
            iff::Record::ChangeException,
        ),
    }
}

// A record of a TIMETBLS block; what has no letter of its own is a stop.
pub fn block_record(letter: u8) -> iff::Record
    ensures { result ≡ block_record letter }
{
    match letter {
        b'#' => iff::Record::ServiceHead,
        b'%' => iff::Record::TrainNumber,
        b'-' => iff::Record::Validity,
        b'&' => iff::Record::Transport,
        b'*' => iff::Record::Attribute,
        b'+' => iff::Record::Interval,
        b';' => iff::Record::Passed,
        b'?' => iff::Record::Platform,
        _ => iff::Record::PlainStop,
    }
}

// Layout.

// How a line looks beside a picture: it fits, and it has the figures.
#[derive(Clone, Copy)]
pub struct Looks(pub bool, pub bool);

fn looks_by(line: &[u8], picture: &[u8]) -> Looks
    ensures { LooksBy line.now picture.now result }
{
    let fitting = fields::fits_picture(line, picture);
    Looks(fitting, fields::has_figures(line, picture))
}

// Both at one look, since the pictures are put together at every use.
pub fn looks_in(line: &[u8], from: usize, to: usize) -> Looks
    requires { (from ≤ to) × (to ≤ 511) }
    ensures { LooksBy line.now (take (to - from) (drop from pictures)) result }
{
    looks_by(line, &PICTURES[from..to])
}
