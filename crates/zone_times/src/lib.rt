// A time by a zone's period: on the zone's clock and on the reference clock, where there is a period.
#![tactic(auto)]

ghost use Rattle.std.specs.Prelude.{◌≡◌, ◌<◌};
ghost use Rattle.iff.specs.Tables.{row_width};
ghost use Rattle.iff.specs.Words.{hours};
ghost use Rattle.iff.specs.declared.GroupFile.TheVariants.{Timezone};
ghost use Rattle.iff.specs.declared.File.TheVariants.{Groups};
ghost use Rattle.iff_desk.specs.Stops.{told_if};
ghost use Rattle.store.specs.Found.{row_or, Stands};
ghost use Rattle.zone_times.specs.Clocks.{ClockTime, ToldFor};

use iff::{tags, words};

// A time on a zone's clock and on the reference clock, by the zone rule alone.
fn clock_time(time: u64, earlier: bool, hours: u64) -> Option<iff_desk::Moment>
    requires { hours < 100 }
    ensures { ClockTime time earlier hours result }
{
    let minutes = clock::minutes_of(time)?;
    let local = clock::local_of(minutes);
    Some(iff_desk::Moment {
        local,
        reference: clock::to_reference(local, earlier, hours),
    })
}

// A time is told where there is a period; no time asks for none.
fn told_if(there: bool, time: Option<iff_desk::Moment>) -> Option<Option<iff_desk::Moment>>
    ensures { result ≡ told_if there time }
{
    match time {
        Some(moment) => {
            if there {
                return Some(Some(moment));
            }
            None
        }
        None => Some(None),
    }
}

// A time as written, by a period that was looked for.
pub fn told_by(zones: &[u64], period: Option<usize>, time: u64) -> Option<Option<iff_desk::Moment>>
    requires { Stands (row_width (Groups Timezone)) zones.now period
        × (hours (row_or (row_width (Groups Timezone)) zones.now period) < 100) }
    ensures { ToldFor (row_or (row_width (Groups Timezone)) zones.now period) time result }
{
    let tag = store::word_of(zones, store::ZONE_WIDTH, period, words::TAG);
    let hours = store::word_of(zones, store::ZONE_WIDTH, period, words::HOURS);
    told_if(tag != 0, clock_time(time, tag == tags::DASH, hours))
}
