// The answer to a change as the paper's numbers and values, for callers to whom an enum cannot be handed.
#![tactic(auto)]

ghost use Rattle.std.specs.Prelude.{◌≡◌};
ghost use Rattle.iff_desk.specs.Answers.{why_early, why_barred, bar_source};
ghost use Rattle.change_numbers.specs.Numbers.{why_of, source_of, change_words, change_gap};

use iff::Reason;
use iff_desk::{Bar, Change, Early, Source};

// The verdict: No, Yes or Unsettled.
const NO: u64 = 1;

const YES: u64 = 2;

const UNSETTLED: u64 = 3;

// Why a No before a gap is reached.
fn number_of_early(early: Early) -> u64
    ensures { result ≡ why_of (why_early early) }
{
    match early {
        Early::SameService => 1,
        Early::FromRests => 2,
        Early::ToRests => 3,
        Early::StationsDiffer => 4,
        Early::NobodyAlights => 5,
        Early::NobodyBoards => 6,
    }
}

// Why a No that a pair or a flag brings about.
fn number_of_bar(bar: Bar) -> u64
    ensures { result ≡ why_of (why_barred bar) }
{
    match bar {
        Bar::Pair00 => 7,
        Bar::Flag0 => 8,
    }
}

// Why a No with a needed time: the gap is below it.
const GAP_BELOW_NEEDED: u64 = 9;

// Where a needed time comes from.
fn number_of_source(source: Source) -> u64
    ensures { result ≡ source_of source }
{
    match source {
        Source::FromChanges => 1,
        Source::FromStations => 2,
        Source::FromXchanges => 3,
    }
}

// Where a pair or a flag stands.
fn source_of_bar(bar: Bar) -> u64
    ensures { result ≡ source_of (bar_source bar) }
{
    match bar {
        Bar::Pair00 => number_of_source(Source::FromChanges),
        Bar::Flag0 => number_of_source(Source::FromStations),
    }
}

// Seven numbers: the refusal; the verdict; why a No; whether a gap was reached; the source; whether a needed time was reached, and that time.
pub fn change_words(answer: Result<Change, Reason>) -> [u64; 7]
    ensures { result ≡ change_words answer }
{
    match answer {
        Err(reason) => {
            let number = numbers::number_of(reason);
            [number, 0, 0, 0, 0, 0, 0]
        }
        Ok(Change::NoBefore(early)) => {
            let why = number_of_early(early);
            [0, NO, why, 0, 0, 0, 0]
        }
        Ok(Change::NoBarred(_, bar)) => {
            let why = number_of_bar(bar);
            let from = source_of_bar(bar);
            [0, NO, why, 1, from, 0, 0]
        }
        Ok(Change::NoShort(_, source, needed)) => {
            let from = number_of_source(source);
            [0, NO, GAP_BELOW_NEEDED, 1, from, 1, needed]
        }
        Ok(Change::Yes(_, source, needed)) => {
            let from = number_of_source(source);
            [0, YES, 0, 1, from, 1, needed]
        }
        Ok(Change::Unsettled(_, source, needed)) => {
            let from = number_of_source(source);
            [0, UNSETTLED, 0, 1, from, 1, needed]
        }
    }
}

// The gap, in minutes.
pub fn change_gap(answer: Result<Change, Reason>) -> [i32; 1]
    ensures { result ≡ change_gap answer }
{
    match answer {
        Err(_) => [0],
        Ok(Change::NoBefore(_)) => [0],
        Ok(Change::NoBarred(gap, _)) => [gap],
        Ok(Change::NoShort(gap, _, _)) => [gap],
        Ok(Change::Yes(gap, _, _)) => [gap],
        Ok(Change::Unsettled(gap, _, _)) => [gap],
    }
}
