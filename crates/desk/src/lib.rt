// The desk's questions over eleven lent tables of any length and content, which nothing is written to. "Calls that are lent a loaded store test 16 first":
// the index of keys that the test fills is where the questions look.
#![tactic(auto)]

ghost use Rattle.std.specs.Prelude.{◌≡◌, List};
ghost use Rattle.iff.specs.Files.{PerFile, eleven};
ghost use Rattle.iff.specs.Tables.{Row, rows_in};
ghost use Rattle.iff.specs.declared.RowFile.TheVariants.{Stations};
ghost use Rattle.iff.specs.declared.GroupFile.TheVariants.{Timezone, Footnote};
ghost use Rattle.iff.specs.declared.File.TheVariants.{Delivery, Rows, Groups, Timetbls};
ghost use Rattle.iff_desk.specs.Running.{running_in, running_day};
ghost use Rattle.iff_desk.specs.Stops.{stop_time_in, stop_time};
ghost use Rattle.iff_desk.specs.Changing.{precheck, core_change, call_of, change_after, change as change_to};
ghost use Rattle.day_times.specs.Told.{FewHours};
ghost use Rattle.changing.specs.Agree.{RowsOf};
ghost use Rattle.changing.specs.Sides.{side_of};
ghost use Rattle.desk.specs.Sure.{Once, Leant, CountedRows};

use changing::Visit;
use iff::{File, GroupFile, Reason, RowFile};
use iff_desk::Change;
use needed_times::StoreCounts;

// Running day, of tables found sound.
fn running_there(
    delivery: &[u64],
    timetbls: &[u64],
    footnote: &[u64],
    places: &[u32],
    service: u64,
    leg: u64,
    date: u64,
) -> Result<bool, iff::Reason>
    requires { Once Delivery delivery.now × Once Timetbls timetbls.now × Once (Groups Footnote) footnote.now }
    ensures { (R : PerFile (List Row))
        → R.delivery ≡ rows_in Delivery delivery.now
        → R.timetbls ≡ rows_in Timetbls timetbls.now
        → R.footnote ≡ rows_in (Groups Footnote) footnote.now
        → result ≡ running_in R service leg date }
{
    let days = keys::used_rows(File::Delivery, delivery);
    let services = keys::used_rows(File::Timetbls, timetbls);
    let footnotes = keys::used_rows(File::Groups(GroupFile::Footnote), footnote);
    running::running_in(
        delivery, days, timetbls, services, places, footnote, footnotes, places, service, leg, date,
    )
}

// Running day: does a service run on a leg on a date? 16; 12, 13, 14.
pub fn running_day(
    delivery: &[u64],
    company: &[u64],
    country: &[u64],
    trnsmode: &[u64],
    timezone: &[u64],
    stations: &[u64],
    footnote: &[u64],
    timetbls: &[u64],
    changes: &[u64],
    xfootnote: &[u64],
    xchanges: &[u64],
    service: u64,
    leg: u64,
    date: u64,
) -> Result<bool, iff::Reason>
    ensures { result ≡ running_day (eleven delivery.now company.now country.now trnsmode.now
        timezone.now stations.now footnote.now timetbls.now changes.now
        xfootnote.now xchanges.now) service leg date }
{
    let mut places = [0u32; sound::SLOTS];
    if !sound::is_sound_by(
        delivery,
        company,
        country,
        trnsmode,
        timezone,
        stations,
        footnote,
        timetbls,
        changes,
        xfootnote,
        xchanges,
        &mut places,
    ) {
        return Err(Reason::NotSound);
    }
    running_there(delivery, timetbls, footnote, &places, service, leg, date)
}

// Stop time, of tables found sound.
fn stop_time_there(
    delivery: &[u64],
    timezone: &[u64],
    stations: &[u64],
    timetbls: &[u64],
    places: &[u32],
    service: u64,
    stop: u64,
    date: u64,
) -> Result<iff_desk::StopTimes, iff::Reason>
    requires { Once Delivery delivery.now × Once (Groups Timezone) timezone.now × Once (Rows Stations) stations.now
        × Once Timetbls timetbls.now × FewHours timezone.now }
    ensures { (R : PerFile (List Row))
        → R.delivery ≡ rows_in Delivery delivery.now
        → R.timezone ≡ rows_in (Groups Timezone) timezone.now
        → R.stations ≡ rows_in (Rows Stations) stations.now
        → R.timetbls ≡ rows_in Timetbls timetbls.now
        → result ≡ stop_time_in R service stop date }
{
    let days = keys::used_rows(File::Delivery, delivery);
    let zones = keys::used_rows(File::Groups(GroupFile::Timezone), timezone);
    let names = keys::used_rows(File::Rows(RowFile::Stations), stations);
    let services = keys::used_rows(File::Timetbls, timetbls);
    stop_times::stop_time_in(
        delivery, days, timetbls, services, places, timezone, zones, places, stations, names,
        places, service, stop, date,
    )
}

// Stop time: station, arrival and departure of a service at a stop on a date. 16; 12, 13, 14, 15.
pub fn stop_time(
    delivery: &[u64],
    company: &[u64],
    country: &[u64],
    trnsmode: &[u64],
    timezone: &[u64],
    stations: &[u64],
    footnote: &[u64],
    timetbls: &[u64],
    changes: &[u64],
    xfootnote: &[u64],
    xchanges: &[u64],
    service: u64,
    stop: u64,
    date: u64,
) -> Result<iff_desk::StopTimes, iff::Reason>
    ensures { result ≡ stop_time (eleven delivery.now company.now country.now trnsmode.now
        timezone.now stations.now footnote.now timetbls.now changes.now
        xfootnote.now xchanges.now) service stop date }
{
    let mut places = [0u32; sound::SLOTS];
    if !sound::is_sound_by(
        delivery,
        company,
        country,
        trnsmode,
        timezone,
        stations,
        footnote,
        timetbls,
        changes,
        xfootnote,
        xchanges,
        &mut places,
    ) {
        return Err(Reason::NotSound);
    }
    stop_time_there(
        delivery, timezone, stations, timetbls, &places, service, stop, date,
    )
}

// How many rows of the tables that a change reads are in use.
fn count_rows(
    delivery: &[u64],
    timezone: &[u64],
    stations: &[u64],
    footnote: &[u64],
    timetbls: &[u64],
    changes: &[u64],
    xfootnote: &[u64],
    xchanges: &[u64],
) -> StoreCounts
    ensures { CountedRows result delivery.now timezone.now stations.now footnote.now timetbls.now changes.now xfootnote.now xchanges.now }
{
    StoreCounts {
        delivery: keys::used_rows(File::Delivery, delivery),
        timezone: keys::used_rows(File::Groups(GroupFile::Timezone), timezone),
        stations: keys::used_rows(File::Rows(RowFile::Stations), stations),
        footnote: keys::used_rows(File::Groups(GroupFile::Footnote), footnote),
        timetbls: keys::used_rows(File::Timetbls, timetbls),
        changes: keys::used_rows(File::Groups(GroupFile::Changes), changes),
        xfootnote: keys::used_rows(File::Groups(GroupFile::Xfootnote), xfootnote),
        xchanges: keys::used_rows(File::Groups(GroupFile::Xchanges), xchanges),
    }
}

// A change, of tables found sound.
fn change_there(
    delivery: &[u64],
    timezone: &[u64],
    stations: &[u64],
    footnote: &[u64],
    timetbls: &[u64],
    changes: &[u64],
    xfootnote: &[u64],
    xchanges: &[u64],
    places: &[u32],
    from: Visit,
    to: Visit,
) -> Result<Change, Reason>
    requires { Leant delivery.now timezone.now stations.now footnote.now timetbls.now changes.now xfootnote.now xchanges.now }
    ensures { (R : PerFile (List Row))
        → RowsOf R delivery.now timezone.now stations.now footnote.now
        timetbls.now changes.now xfootnote.now xchanges.now
        → result ≡ change_after (precheck R (side_of from) (side_of to)) (core_change R (call_of R (side_of from)) (call_of R (side_of to))) }
{
    let counts = count_rows(
        delivery, timezone, stations, footnote, timetbls, changes, xfootnote, xchanges,
    );
    // One question does not pay for an index of the stations in CHANGES and XCHANGES: no slots.
    let heads = &places[0..0];
    changing::change_in(
        delivery, timezone, stations, footnote, timetbls, changes, xfootnote, xchanges, places,
        places, heads, counts, from, to,
    )
}

// Change: from a service at a stop on its date to another. 16; 12, 13, 14 for either side; No and why; 15; No, Yes or Unsettled.
pub fn change(
    delivery: &[u64],
    company: &[u64],
    country: &[u64],
    trnsmode: &[u64],
    timezone: &[u64],
    stations: &[u64],
    footnote: &[u64],
    timetbls: &[u64],
    changes: &[u64],
    xfootnote: &[u64],
    xchanges: &[u64],
    from_service: u64,
    from_stop: u64,
    from_date: u64,
    to_service: u64,
    to_stop: u64,
    to_date: u64,
) -> Result<Change, Reason>
    ensures { result ≡ change_to (eleven delivery.now company.now country.now trnsmode.now
        timezone.now stations.now footnote.now timetbls.now changes.now
        xfootnote.now xchanges.now)
        (record { service = from_service; stop = from_stop; date = from_date })
        (record { service = to_service; stop = to_stop; date = to_date }) }
{
    let mut places = [0u32; sound::SLOTS];
    if !sound::is_sound_by(
        delivery,
        company,
        country,
        trnsmode,
        timezone,
        stations,
        footnote,
        timetbls,
        changes,
        xfootnote,
        xchanges,
        &mut places,
    ) {
        return Err(Reason::NotSound);
    }
    let from = Visit {
        service: from_service,
        stop: from_stop,
        date: from_date,
    };
    let to = Visit {
        service: to_service,
        stop: to_stop,
        date: to_date,
    };
    change_there(
        delivery, timezone, stations, footnote, timetbls, changes, xfootnote, xchanges, &places,
        from, to,
    )
}
