// The answers to the desk's questions but a change as the paper's numbers and values, for callers to whom an enum cannot be handed.
#![tactic(auto)]

ghost use Rattle.std.specs.Prelude.{◌≡◌};
ghost use Rattle.iff_desk.specs.Answers.{part_number, local_shown, reference_shown};
ghost use Rattle.numbers.specs.Numbers.{is_shown, minutes_or0};
ghost use Rattle.question_numbers.specs.Numbers.{sound_number, part_words, lines_words, running_words, stop_time_words, stop_time_minutes};

use iff::{Reason, Test};

// SOUNDNESS

// 0, or 16.
pub fn sound_number(sound: bool) -> u64
    ensures { result ≡ sound_number sound }
{
    if sound {
        return 0;
    }
    numbers::number_of(Reason::NotSound)
}

// NAME AND LINES NOW

// The refusal, 0 where there is a part.
pub fn part_number(test: Test) -> u64
    ensures { result ≡ part_number test }
{
    match test {
        Ok(()) => 0,
        Err(reason) => numbers::number_of(reason),
    }
}

// Three numbers: the refusal; where the part begins, and where it ends.
pub fn part_words(test: Test, from: usize, to: usize) -> [u64; 3]
    ensures { result ≡ part_words test from to }
{
    let number = part_number(test);
    let begins = answers::wide(from);
    let ends = answers::wide(to);
    [number, begins, ends]
}

// Four: after the refusal, whether it is a part of the block.
pub fn lines_words(test: Test, in_block: bool, from: usize, to: usize) -> [u64; 4]
    ensures { result ≡ lines_words test in_block from to }
{
    let number = part_number(test);
    let begins = answers::wide(from);
    let ends = answers::wide(to);
    if in_block {
        return [number, 1, begins, ends];
    }
    [number, 0, begins, ends]
}

// RUNNING DAY

// Two numbers: the refusal; 1 runs, 2 rests.
pub fn running_words(answer: Result<bool, iff::Reason>) -> [u64; 2]
    ensures { result ≡ running_words answer }
{
    match answer {
        Ok(true) => [0, 1],
        Ok(false) => [0, 2],
        Err(reason) => {
            let number = numbers::number_of(reason);
            [number, 0]
        }
    }
}

// STOP TIME

// 1 where there is a time, 0 where there is none.
fn is_there(time: Option<iff_desk::Moment>) -> u64
    ensures { result ≡ is_shown (local_shown time) }
{
    match time {
        Some(_) => 1,
        None => 0,
    }
}

// Its minutes on the zone's clock, 0 where there is none.
fn local_of(time: Option<iff_desk::Moment>) -> i32
    ensures { result ≡ minutes_or0 (local_shown time) }
{
    match time {
        Some(moment) => moment.local.0,
        None => 0,
    }
}

// And on the reference clock.
fn reference_of(time: Option<iff_desk::Moment>) -> i32
    ensures { result ≡ minutes_or0 (reference_shown time) }
{
    match time {
        Some(moment) => moment.reference.0,
        None => 0,
    }
}

// Four numbers: the refusal; the station; whether there is an arrival, and whether a departure.
pub fn stop_time_words(answer: Result<iff_desk::StopTimes, iff::Reason>) -> [u64; 4]
    ensures { result ≡ stop_time_words answer }
{
    match answer {
        Ok(times) => {
            let arrival = times.arrival;
            let departure = times.departure;
            let arrives = is_there(arrival);
            let departs = is_there(departure);
            [0, times.station, arrives, departs]
        }
        Err(reason) => {
            let number = numbers::number_of(reason);
            [number, 0, 0, 0]
        }
    }
}

// Four of minutes: the arrival and the departure, each on the zone's clock and on the reference clock.
pub fn stop_time_minutes(answer: Result<iff_desk::StopTimes, iff::Reason>) -> [i32; 4]
    ensures { result ≡ stop_time_minutes answer }
{
    match answer {
        Ok(times) => {
            let arrival = times.arrival;
            let departure = times.departure;
            let arrives = local_of(arrival);
            let arrives_reference = reference_of(arrival);
            let departs = local_of(departure);
            let departs_reference = reference_of(departure);
            [arrives, arrives_reference, departs, departs_reference]
        }
        Err(_) => [0, 0, 0, 0],
    }
}
