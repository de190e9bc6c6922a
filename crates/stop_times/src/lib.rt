// "Stop time: service, stop, date: station, local and reference arrival and departure, each perhaps none. 12, 13, 14, 15.", of a store that was
// found sound.
#![tactic(auto)]

ghost use Rattle.std.specs.Prelude.{◌≡◌, List, ◌<◌};
ghost use Rattle.iff.specs.Days.{day_of};
ghost use Rattle.iff.specs.Files.{PerFile};
ghost use Rattle.iff.specs.Tables.{Row, row_width, rows_in};
ghost use Rattle.iff.specs.declared.RowFile.TheVariants.{Stations};
ghost use Rattle.iff.specs.declared.GroupFile.TheVariants.{Timezone};
ghost use Rattle.iff.specs.declared.File.TheVariants.{Delivery, Rows, Groups, Timetbls};
ghost use Rattle.iff_desk.specs.Store.{day_number};
ghost use Rattle.iff_desk.specs.Stops.{is_stop_number, stop_time_in};
ghost use Rattle.store.specs.Found.{Stored, rows_of, Inside, row_or, Stands};
ghost use Rattle.day_times.specs.Told.{FewHours};
ghost use Rattle.stop_times.specs.Times.{times_there};

use iff::{Reason, words};
use iff_desk::StopTimes;
use store::Part;

// A date as a day's number, 0 for what is no date.
fn day_number(date: u64) -> u64
    ensures { (result ≡ day_number (day_of date)) × (result < 4000000) }
{
    match calendar::day_of(date) {
        Some(day) => day,
        None => 0,
    }
}

// THE QUESTION

// Stops are 1 to n.
pub fn is_stop_number(timetbls: &[u64], part: Part, number: u64) -> bool
    requires { Inside (row_width Timetbls) timetbls.now part }
    ensures { result ≡ is_stop_number (rows_of (row_width Timetbls) timetbls.now part) number }
{
    if number < 1 {
        return false;
    }
    number <= service_rows::count_stops(timetbls, part)
}

// The times of a stop's row on a date, each by the period of its own day: 15 where none holds it.
fn times_there(
    timetbls: &[u64],
    row: Option<usize>,
    zones: &[u64],
    zones_used: usize,
    zone_places: &[u32],
    stations: &[u64],
    stations_used: usize,
    station_places: &[u32],
    date: u64,
) -> Result<iff_desk::StopTimes, iff::Reason>
    requires { Stands (row_width Timetbls) timetbls.now row
        × Stored (Groups Timezone) zones_used zones.now
        × Stored (Rows Stations) stations_used stations.now
        × FewHours zones.now }
    ensures { (R : PerFile (List Row))
        → R.timezone ≡ rows_in (Groups Timezone) zones.now
        → R.stations ≡ rows_in (Rows Stations) stations.now
        → result ≡ times_there R (row_or (row_width Timetbls) timetbls.now row) (day_number (day_of date)) }
{
    let station = store::word_of(timetbls, tables::BLOCK_WIDTH, row, words::NAMED);
    let number = day_number(date);
    let Some(arrival) = day_times::arrival_on(
        timetbls,
        row,
        zones,
        zones_used,
        zone_places,
        stations,
        stations_used,
        station_places,
        station,
        number,
    ) else {
        return Err(Reason::NoPeriod);
    };
    let Some(departure) = day_times::departure_on(
        timetbls,
        row,
        zones,
        zones_used,
        zone_places,
        stations,
        stations_used,
        station_places,
        station,
        number,
    ) else {
        return Err(Reason::NoPeriod);
    };
    Ok(StopTimes {
        station: station,
        arrival: arrival,
        departure: departure,
    })
}

// Station and times of a stop of a service on a date. It is not asked whether the service runs.
pub fn stop_time_in(
    delivery: &[u64],
    delivery_used: usize,
    timetbls: &[u64],
    timetbls_used: usize,
    service_places: &[u32],
    zones: &[u64],
    zones_used: usize,
    zone_places: &[u32],
    stations: &[u64],
    stations_used: usize,
    station_places: &[u32],
    service: u64,
    number: u64,
    date: u64,
) -> Result<iff_desk::StopTimes, iff::Reason>
    requires { Stored Delivery delivery_used delivery.now
        × Stored Timetbls timetbls_used timetbls.now
        × Stored (Groups Timezone) zones_used zones.now
        × Stored (Rows Stations) stations_used stations.now
        × FewHours zones.now }
    ensures { (R : PerFile (List Row))
        → R.delivery ≡ rows_in Delivery delivery.now
        → R.timetbls ≡ rows_in Timetbls timetbls.now
        → R.timezone ≡ rows_in (Groups Timezone) zones.now
        → R.stations ≡ rows_in (Rows Stations) stations.now
        → result ≡ stop_time_in R service number date }
{
    let part = store::find_group(
        iff::File::Timetbls,
        timetbls,
        timetbls_used,
        service_places,
        service,
    );
    let right = is_stop_number(timetbls, part, number);
    running::asked(delivery, delivery_used, part, right, date)?;
    let row = service_rows::stop_row(timetbls, part, number);
    times_there(
        timetbls,
        row,
        zones,
        zones_used,
        zone_places,
        stations,
        stations_used,
        station_places,
        date,
    )
}
