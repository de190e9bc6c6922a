// The words of rows by name, each table's as docs/TABLES.md has them. The same names are in specs/Words.antt.
pub const TAG: usize = 0;

// A first line.
pub const OWN_COMPANY: usize = 1;

pub const FIRST_DAY: usize = 2;

pub const LAST_DAY: usize = 3;

pub const VERSION: usize = 4;

pub const RISES: usize = 5;

// COMPANY, COUNTRY.
pub const COMPANY_NUMBER: usize = 1;

pub const DAY_TURN: usize = 2;

pub const INLAND: usize = 2;

// A period of TIMEZONE.
pub const HOURS: usize = 1;

pub const PERIOD_FIRST: usize = 2;

pub const PERIOD_LAST: usize = 3;

// STATIONS.
pub const CHANGE_FLAG: usize = 1;

pub const SHORT_NAME: usize = 2;

pub const CHANGE_TIME: usize = 3;

pub const STATION_COUNTRY: usize = 4;

pub const STATION_ZONE: usize = 5;

// A vector of FOOTNOTE or XFOOTNOTE: its first word of marks.
pub const MARKS: usize = 1;

// The word right behind the tag: the key of a row that opens a group or a block, and what a record of a block names.
pub const NAMED: usize = 1;

// A block's `#`: how many lines and stops the block has. The last word of every row of TIMETBLS is the line's number in its block.
pub const LINE_COUNT: usize = 2;

pub const STOP_COUNT: usize = 3;

pub const LINE_NUMBER: usize = 6;

// `%`, and then `-`, `&` and `*`.
pub const TRAIN_NUMBER: usize = 2;

pub const TRAIN_FIRST: usize = 3;

pub const TRAIN_LAST: usize = 4;

pub const RECORD_FIRST: usize = 2;

pub const RECORD_LAST: usize = 3;

pub const ATTRIBUTE_FOOTNOTE: usize = 4;

// A stop's time; of `+`, its arrival and its departure.
pub const STOP_TIME: usize = 2;

pub const ARRIVAL: usize = 2;

pub const DEPARTURE: usize = 3;

// A pair of CHANGES.
pub const FROM_SERVICE: usize = 1;

pub const TO_SERVICE: usize = 2;

pub const POSSIBILITY: usize = 3;

// A row of XCHANGES.
pub const FROM_COMPANY: usize = 1;

pub const FROM_MODE: usize = 2;

pub const TO_COMPANY: usize = 3;

pub const TO_MODE: usize = 4;

pub const EXCEPTION_TIME: usize = 5;

pub const EXCEPTION_FOOTNOTE: usize = 6;
