// What the desk's questions answer. The number and values that the paper gives each case are in specs/Answers.antt.
#![tactic(auto)]

use iff::{LocalMinutes, ReferenceMinutes};

// A time of a stop, on the zone's clock and on the reference clock.
#[derive(Clone, Copy)]
pub struct Moment {
    pub local: LocalMinutes,
    pub reference: ReferenceMinutes,
}

// A stop's times: none where nobody alights, or nobody boards.
#[derive(Clone, Copy)]
pub struct StopTimes {
    pub station: u64,
    pub arrival: Option<Moment>,
    pub departure: Option<Moment>,
}

// Why a change is a No before a gap is reached.
#[derive(Clone, Copy)]
pub enum Early {
    SameService,
    FromRests,
    ToRests,
    StationsDiffer,
    NobodyAlights,
    NobodyBoards,
}

// Where a needed time comes from.
#[derive(Clone, Copy)]
pub enum Source {
    FromChanges,
    FromStations,
    FromXchanges,
}

// Why a change is a No with a gap and a source, and with no needed time: a pair 00 in CHANGES, or a station's flag 0.
#[derive(Clone, Copy)]
pub enum Bar {
    Pair00,
    Flag0,
}

// A change: No before a gap is reached; No that a pair or a flag brings about, with the gap; then, with gap, source and needed time, No
// because the gap is too short, Yes, or Unsettled.
#[derive(Clone, Copy)]
pub enum Change {
    NoBefore(Early),
    NoBarred(i32, Bar),
    NoShort(i32, Source, u64),
    Yes(i32, Source, u64),
    Unsettled(i32, Source, u64),
}

// One side of a change: a service, a stop of it, and a day counted from the first day of validity.
#[derive(Clone, Copy)]
pub struct Call {
    pub service: u64,
    pub stop: u64,
    pub day: u64,
}

// A company and a mode: those of a service on a leg, or the keys of an exception for one side.
#[derive(Clone, Copy)]
pub struct Riding {
    pub company: u64,
    pub mode: u64,
}

// The best row of XCHANGES that applies: its rank and its time.
#[derive(Clone, Copy)]
pub struct Best {
    pub rank: u64,
    pub time: u64,
}
