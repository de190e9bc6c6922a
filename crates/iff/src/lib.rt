// Document 01's answers as types. The number and values that the paper gives each case are in specs/Refusals.antt.
#![tactic(auto)]

pub mod limits;
pub mod tags;
pub mod words;

// The eleven files, by kind. A name, and no number: which comes when, and which is needed, is for specs/Files.antt to say.
// Files of rows: without record letters, so that every line after the first is a row.
#[derive(Clone, Copy)]
pub enum RowFile {
    Company,
    Country,
    Trnsmode,
    Stations,
}

// Files of groups: each group opens with a line beginning `#`.
#[derive(Clone, Copy)]
pub enum GroupFile {
    Timezone,
    Footnote,
    Changes,
    Xfootnote,
    Xchanges,
}

// DELIVERY has its first line alone, and TIMETBLS has blocks.
#[derive(Clone, Copy)]
pub enum File {
    Delivery,
    Rows(RowFile),
    Groups(GroupFile),
    Timetbls,
}

// The edition of IFF that a delivery is written in.
#[derive(Clone, Copy)]
pub enum Edition {
    Iff424,
}

// What the columns of a delivery's lines depend on: the days of validity, one for each mark of a vector, and the edition.
#[derive(Clone, Copy)]
pub struct Form {
    pub days: usize,
    pub edition: Edition,
}

// The records of the Columns table, in its order.
#[derive(Clone, Copy)]
pub enum Record {
    FirstRecord,
    CompanyRow,
    CountryRow,
    ModeRow,
    ZoneHead,
    ZonePeriod,
    StationRow,
    FootnoteHead,
    FootnoteVector,
    ServiceHead,
    TrainNumber,
    Validity,
    Transport,
    Attribute,
    PlainStop,
    Interval,
    Passed,
    Platform,
    ChangeHead,
    ChangePair,
    ChangeException,
}

// Why something is refused: refusals 1 to 17 and, of the requests, 23, in the paper's order.
#[derive(Clone, Copy)]
pub enum Reason {
    TooLong,
    NoRoom,
    Absent,
    Layout,
    Value,
    FirstLine,
    Order,
    Duplicate,
    Reference,
    Legs,
    NotOneBlock,
    NoService,
    NoStop,
    NoDate,
    NoPeriod,
    NotSound,
    NoStation,
    ShortList,
}

// Where something is refused: a file, a block's ordinal and a line. The refusals whose place is 0, 0, 0 have none.
#[derive(Clone, Copy)]
pub struct Place {
    pub file: File,
    pub ordinal: u64,
    pub line: u64,
}

// A refusal, with its place where it has one.
#[derive(Clone, Copy)]
pub struct Fault {
    pub reason: Reason,
    pub place: Option<Place>,
}

// What a load or an amendment that is accepted tells: the days and the services.
#[derive(Clone, Copy)]
pub struct Accepted {
    pub days: u64,
    pub services: u64,
}

// What the tests of one line say.
pub type Test = Result<(), Reason>;

// What the tests of lines, blocks and files say: nothing, or the first fault.
pub type Verdict = Result<(), Fault>;

// What a load or an amendment answers.
pub type Answer = Result<Accepted, Fault>;

// Where the lines of a TIMETBLS block stand: before its `#`, or after which record. `Between` is after a passed station or a platform
// record, where no platform record may follow.
#[derive(Clone, Copy)]
pub enum Stand {
    Start,
    Hash,
    Percent,
    Dash,
    Ampersand,
    Asterisk,
    Stop,
    Between,
    Last,
    LastPlatform,
}

// Where a block's next line stands, and how many stops came before it.
#[derive(Clone, Copy)]
pub struct InBlock {
    pub stand: Stand,
    pub stops: u64,
}

// Where the lines of a group stand: before its `#`, right after it, or after a line that follows it.
#[derive(Clone, Copy)]
pub enum GroupStand {
    Opening,
    Opened,
    Going,
}

// Minutes on a zone's own clock, and on the reference clock. Only the zone rule turns one into the other.
#[derive(Clone, Copy)]
pub struct LocalMinutes(pub i32);

#[derive(Clone, Copy)]
pub struct ReferenceMinutes(pub i32);
