// A stop's arrival and departure on a service day, each by the period that holds its own day, in the zone of the stop's station.
#![tactic(auto)]

ghost use Rattle.std.specs.Prelude.{◌≡◌, List, ◌+◌, ◌<◌};
ghost use Rattle.iff.specs.Files.{PerFile};
ghost use Rattle.iff.specs.Tables.{Row, row_width, rows_in};
ghost use Rattle.iff.specs.Times.{minutes_of};
ghost use Rattle.iff.specs.declared.RowFile.TheVariants.{Stations};
ghost use Rattle.iff.specs.declared.GroupFile.TheVariants.{Timezone};
ghost use Rattle.iff.specs.declared.File.TheVariants.{Rows, Groups, Timetbls};
ghost use Rattle.iff_desk.specs.Store.{period_at};
ghost use Rattle.iff_desk.specs.Stops.{arrival_of, departure_of, days_later, told_by, told_on};
ghost use Rattle.store.specs.Found.{Stored, row_or, Stands, RowFor};
ghost use Rattle.day_times.specs.Told.{FewHours, ToldFrom};

use iff::words;

// The number of the day that a time falls on, by that of its service day. No time has no day of its own.
fn own_day(number: u64, time: u64) -> u64
    requires { number < 4000000 }
    ensures { result ≡ number + days_later (minutes_of time) }
{
    match clock::minutes_of(time) {
        Some(minutes) => number + time_days::days_in(minutes),
        None => number,
    }
}

// The period of a station's own zone that holds a day, by the day's number.
fn period_at(
    zones: &[u64],
    zones_used: usize,
    zone_places: &[u32],
    stations: &[u64],
    stations_used: usize,
    station_places: &[u32],
    station: u64,
    number: u64,
) -> Option<usize>
    requires { Stored (Groups Timezone) zones_used zones.now × Stored (Rows Stations) stations_used stations.now }
    ensures { (R : PerFile (List Row))
        → R.timezone ≡ rows_in (Groups Timezone) zones.now
        → R.stations ≡ rows_in (Rows Stations) stations.now
        → RowFor (row_width (Groups Timezone)) zones.now (period_at R station number) result }
{
    let row = store::find_station(stations, stations_used, station_places, station);
    let zone = store::word_of(stations, store::STATION_WIDTH, row, words::STATION_ZONE);
    periods::find_period(zones, zones_used, zone_places, zone, number)
}

// A time as written at a station, by the number of its own day: told, perhaps as no time, or not told, where the zone has no period on that day.
fn time_on(
    zones: &[u64],
    zones_used: usize,
    zone_places: &[u32],
    stations: &[u64],
    stations_used: usize,
    station_places: &[u32],
    station: u64,
    number: u64,
    time: u64,
) -> Option<Option<iff_desk::Moment>>
    requires { Stored (Groups Timezone) zones_used zones.now
        × Stored (Rows Stations) stations_used stations.now
        × FewHours zones.now }
    ensures { ToldFrom zones.now stations.now (λ R. told_by (period_at R station number) (minutes_of time)) result }
{
    let period = period_at(
        zones,
        zones_used,
        zone_places,
        stations,
        stations_used,
        station_places,
        station,
        number,
    );
    zone_times::told_by(zones, period, time)
}

// THE TWO TIMES OF A STOP, by its row and the service day's number.

pub fn arrival_on(
    timetbls: &[u64],
    row: Option<usize>,
    zones: &[u64],
    zones_used: usize,
    zone_places: &[u32],
    stations: &[u64],
    stations_used: usize,
    station_places: &[u32],
    station: u64,
    number: u64,
) -> Option<Option<iff_desk::Moment>>
    requires { Stands (row_width Timetbls) timetbls.now row
        × Stored (Groups Timezone) zones_used zones.now
        × Stored (Rows Stations) stations_used stations.now
        × FewHours zones.now
        × (number < 4000000) }
    ensures { ToldFrom zones.now stations.now
        (λ R. told_on R station number (arrival_of (row_or (row_width Timetbls) timetbls.now row))) result }
{
    let time = written_times::arrival_of(timetbls, row);
    let arrives = own_day(number, time);
    time_on(
        zones,
        zones_used,
        zone_places,
        stations,
        stations_used,
        station_places,
        station,
        arrives,
        time,
    )
}

pub fn departure_on(
    timetbls: &[u64],
    row: Option<usize>,
    zones: &[u64],
    zones_used: usize,
    zone_places: &[u32],
    stations: &[u64],
    stations_used: usize,
    station_places: &[u32],
    station: u64,
    number: u64,
) -> Option<Option<iff_desk::Moment>>
    requires { Stands (row_width Timetbls) timetbls.now row
        × Stored (Groups Timezone) zones_used zones.now
        × Stored (Rows Stations) stations_used stations.now
        × FewHours zones.now
        × (number < 4000000) }
    ensures { ToldFrom zones.now stations.now
        (λ R. told_on R station number (departure_of (row_or (row_width Timetbls) timetbls.now row))) result }
{
    let time = written_times::departure_of(timetbls, row);
    let departs = own_day(number, time);
    time_on(
        zones,
        zones_used,
        zone_places,
        stations,
        stations_used,
        station_places,
        station,
        departs,
        time,
    )
}
