// "Change: from service A at stop i (2 to n) on its date to B at stop j (1 to n-1) on its date.", of a store that was found sound: a precheck, which
// answers refusals, and a core, which answers whether the change is a No, a Yes or Unsettled. A table comes with the number of its rows in use, and
// with places, a hint where keys stand, on which nothing rests; CHANGES and XCHANGES with an exact index of the stations that open their groups. What
// the answer does not need is not looked for.
#![tactic(auto)]

ghost use Rattle.std.specs.Prelude.{◌≡◌, List, ◌&&◌, ◌<◌, leb, length, Ok};
ghost use Rattle.iff.specs.Days.{longest};
ghost use Rattle.iff.specs.Files.{PerFile};
ghost use Rattle.iff.specs.Tables.{Row, row_width, rows_in};
ghost use Rattle.iff.specs.declared.RowFile.TheVariants.{Stations};
ghost use Rattle.iff.specs.declared.GroupFile.TheVariants.{Footnote, Changes, Xfootnote, Xchanges};
ghost use Rattle.iff.specs.declared.File.TheVariants.{Delivery, Rows, Groups, Timetbls};
ghost use Rattle.iff_desk.specs.Store.{number_on};
ghost use Rattle.iff_desk.specs.Changing.{call_of, gap_between, core_change, precheck as precheck_of, change_after};
ghost use Rattle.slots.specs.Slots.{Index};
ghost use Rattle.store.specs.Found.{Stored, Inside, BlocksTold};
ghost use Rattle.zone_times.specs.Clocks.{FewMinutes};
ghost use Rattle.needed_times.specs.Needed.{rows_found};
ghost use Rattle.changing.specs.Agree.{ZoneRows, NeedRows, RowsOf, ZonesReady, NeedReady, Ready};
ghost use Rattle.changing.specs.Sides.{PartFor, SideFor, side_of, stop_found, hurdle_of, run_hurdle, stop_hurdle, later_hurdle, is_same};
ghost use Rattle.changing.specs.Sides.{arrival_from, departure_to, verdict_by, judged_on, later_change, asked_from, asked_to};

use iff::{Reason, Test, words};
use iff_desk::{Call, Change, Early};
use needed_times::{SideRows, StoreCounts};
use store::Part;

// One side of a change as it is asked: a service, a stop of it, and a date.
#[derive(Clone, Copy)]
pub struct Visit {
    pub service: u64,
    pub stop: u64,
    pub date: u64,
}

// SIDES

// A service's rows.
fn find_part(timetbls: &[u64], used: usize, places: &[u32], service: u64) -> Part
    requires { Stored Timetbls used timetbls.now × BlocksTold timetbls.now }
    ensures { PartFor timetbls.now service result }
{
    store::find_block(timetbls, used, places, service)
}

// With them the row of its stop, and the station there.
fn find_side(timetbls: &[u64], part: Part, call: Call) -> SideRows
    requires { PartFor timetbls.now call.service part }
    ensures { SideFor timetbls.now call result }
{
    let row = service_rows::stop_row(timetbls, part, call.stop);
    SideRows {
        part: part,
        row: row,
        station: store::word_of(timetbls, tables::BLOCK_WIDTH, row, words::NAMED),
    }
}

// ZONES

// A day of validity, counted from the first day, as a day's number.
fn number_on(delivery: &[u64], used: usize, day: u64) -> u64
    requires { Stored Delivery used delivery.now × (day < longest) }
    ensures { ((R : PerFile (List Row)) → R.delivery ≡ rows_in Delivery delivery.now → result ≡ number_on R day) × (result < 4000000) }
{
    match calendar::day_of(store::first_word(delivery, used, words::FIRST_DAY)) {
        Some(first) => first + day,
        None => day,
    }
}

// THE GAP

// From an arrival to a departure, each on its day, where both are times.
fn gap_of(
    arrival: Option<iff_desk::Moment>,
    arrival_day: u64,
    departure: Option<iff_desk::Moment>,
    departure_day: u64,
) -> i32
    requires { FewMinutes arrival × FewMinutes departure × (arrival_day < longest) × (departure_day < longest) }
    ensures { result ≡ gap_between arrival arrival_day departure departure_day }
{
    match arrival {
        Some(from) => match departure {
            Some(to) => clock::gap(from.reference, arrival_day, to.reference, departure_day),
            None => 0,
        },
        None => 0,
    }
}

// THE FIRST NO

// One service on one day.
fn is_same(from: Call, to: Call) -> bool
    ensures { result ≡ is_same from to }
{
    if from.service == to.service {
        return from.day == to.day;
    }
    false
}

// The services run: the one changed from on the leg that ends at its stop, the other on the leg that begins at its stop.
fn run_hurdle(
    footnotes: &[u64],
    timetbls: &[u64],
    places: &[u32],
    used: usize,
    a: SideRows,
    b: SideRows,
    from: Call,
    to: Call,
) -> Option<iff_desk::Early>
    requires { Stored (Groups Footnote) used footnotes.now
        × Inside (row_width Timetbls) timetbls.now a.part
        × Inside (row_width Timetbls) timetbls.now b.part }
    ensures { (R : PerFile (List Row))
        → R.footnote ≡ rows_in (Groups Footnote) footnotes.now
        → hurdle_of result ≡ run_hurdle R (rows_found timetbls.now a) (rows_found timetbls.now b) from to }
{
    let leg = needed_times::leg_before(from.stop);
    if !running::runs_on(timetbls, a.part, footnotes, used, places, leg, from.day) {
        return Some(Early::FromRests);
    }
    if !running::runs_on(timetbls, b.part, footnotes, used, places, to.stop, to.day) {
        return Some(Early::ToRests);
    }
    None
}

// They stop at one station, and somebody alights there and boards.
fn stop_hurdle(
    timetbls: &[u64],
    a: SideRows,
    b: SideRows,
    from: Call,
    to: Call,
) -> Option<iff_desk::Early>
    requires { SideFor timetbls.now from a × SideFor timetbls.now to b }
    ensures { (R : PerFile (List Row))
        → hurdle_of result ≡ stop_hurdle R (rows_found timetbls.now a) (rows_found timetbls.now b) from to }
{
    if a.station != b.station {
        return Some(Early::StationsDiffer);
    }
    let alight = a.row;
    if !written_times::may_alight(timetbls, alight) {
        return Some(Early::NobodyAlights);
    }
    let board = b.row;
    if !written_times::may_board(timetbls, board) {
        return Some(Early::NobodyBoards);
    }
    None
}

// The first No of those that ask for the services' rows, if there is one.
fn later_hurdle(
    footnotes: &[u64],
    timetbls: &[u64],
    places: &[u32],
    used: usize,
    a: SideRows,
    b: SideRows,
    from: Call,
    to: Call,
) -> Option<iff_desk::Early>
    requires { Stored (Groups Footnote) used footnotes.now
        × SideFor timetbls.now from a
        × SideFor timetbls.now to b }
    ensures { (R : PerFile (List Row))
        → R.footnote ≡ rows_in (Groups Footnote) footnotes.now
        → hurdle_of result ≡ later_hurdle R (rows_found timetbls.now a) (rows_found timetbls.now b) from to }
{
    match run_hurdle(footnotes, timetbls, places, used, a, b, from, to) {
        Some(early) => Some(early),
        None => stop_hurdle(timetbls, a, b, from, to),
    }
}

// THE CORE

// The gap between two times, and the verdict on it.
fn weighed(
    stations: &[u64],
    timetbls: &[u64],
    changes: &[u64],
    xfootnotes: &[u64],
    xchanges: &[u64],
    places: &[u32],
    heads: &[u32],
    counts: StoreCounts,
    arrival: Option<iff_desk::Moment>,
    departure: Option<iff_desk::Moment>,
    a: SideRows,
    b: SideRows,
    from: Call,
    to: Call,
) -> Change
    requires { FewMinutes arrival
        × FewMinutes departure
        × (from.day < longest)
        × (to.day < longest)
        × Stored (Rows Stations) counts.stations stations.now
        × Stored (Groups Changes) counts.changes changes.now
        × Stored (Groups Xfootnote) counts.xfootnote xfootnotes.now
        × Stored (Groups Xchanges) counts.xchanges xchanges.now
        × Inside (row_width Timetbls) timetbls.now a.part
        × Inside (row_width Timetbls) timetbls.now b.part
        × Index (Groups Changes) changes.now counts.changes (length heads.now) heads.now
        × Index (Groups Xchanges) xchanges.now counts.xchanges (length heads.now) heads.now }
    ensures { (R : PerFile (List Row))
        → R.stations ≡ rows_in (Rows Stations) stations.now
        → R.changes ≡ rows_in (Groups Changes) changes.now
        → R.xfootnote ≡ rows_in (Groups Xfootnote) xfootnotes.now
        → R.xchanges ≡ rows_in (Groups Xchanges) xchanges.now
        → result
        ≡ verdict_by R (rows_found timetbls.now a) (rows_found timetbls.now b) arrival departure a.station from to }
{
    let gap = gap_of(arrival, from.day, departure, to.day);
    needed_times::by_needed(
        gap, stations, timetbls, changes, xfootnotes, xchanges, places, heads, counts, a, b, from,
        to,
    )
}

// Where no No came before: 15 for either time, each by the period of its own day at its own station, then the verdict.
fn judged(
    delivery: &[u64],
    zones: &[u64],
    stations: &[u64],
    timetbls: &[u64],
    changes: &[u64],
    xfootnotes: &[u64],
    xchanges: &[u64],
    places: &[u32],
    heads: &[u32],
    counts: StoreCounts,
    a: SideRows,
    b: SideRows,
    from: Call,
    to: Call,
) -> Result<Change, Reason>
    requires { ZonesReady counts delivery.now zones.now stations.now
        × NeedReady counts heads.now changes.now xfootnotes.now xchanges.now
        × SideFor timetbls.now from a
        × SideFor timetbls.now to b
        × (from.day < longest)
        × (to.day < longest) }
    ensures { (R : PerFile (List Row))
        → ZoneRows R delivery.now zones.now stations.now
        → NeedRows R changes.now xfootnotes.now xchanges.now
        → result
        ≡ judged_on R (rows_found timetbls.now a) (rows_found timetbls.now b)
        (arrival_from R (stop_found timetbls.now a) a.station from)
        (departure_to R (stop_found timetbls.now b) b.station to) a.station from to }
{
    let alight_number = number_on(delivery, counts.delivery, from.day);
    let alight = a.row;
    let Some(arrival) = day_times::arrival_on(
        timetbls,
        alight,
        zones,
        counts.timezone,
        places,
        stations,
        counts.stations,
        places,
        a.station,
        alight_number,
    ) else {
        return Err(Reason::NoPeriod);
    };
    let board_number = number_on(delivery, counts.delivery, to.day);
    let board = b.row;
    let Some(departure) = day_times::departure_on(
        timetbls,
        board,
        zones,
        counts.timezone,
        places,
        stations,
        counts.stations,
        places,
        b.station,
        board_number,
    ) else {
        return Err(Reason::NoPeriod);
    };
    Ok(weighed(
        stations, timetbls, changes, xfootnotes, xchanges, places, heads, counts, arrival,
        departure, a, b, from, to,
    ))
}

// Where it is not one service on one day: the stops are found, then the other hurdles, then the verdict.
fn later_change(
    delivery: &[u64],
    zones: &[u64],
    stations: &[u64],
    footnotes: &[u64],
    timetbls: &[u64],
    changes: &[u64],
    xfootnotes: &[u64],
    xchanges: &[u64],
    places: &[u32],
    heads: &[u32],
    counts: StoreCounts,
    a_part: Part,
    b_part: Part,
    from: Call,
    to: Call,
) -> Result<Change, Reason>
    requires { Ready counts heads.now delivery.now zones.now stations.now footnotes.now timetbls.now changes.now xfootnotes.now
        xchanges.now
        × (from.day < longest)
        × (to.day < longest)
        × PartFor timetbls.now from.service a_part
        × PartFor timetbls.now to.service b_part }
    ensures { (R : PerFile (List Row))
        → RowsOf R delivery.now zones.now stations.now footnotes.now timetbls.now
        changes.now xfootnotes.now xchanges.now
        → result ≡ later_change R from to }
{
    let a = find_side(timetbls, a_part, from);
    let b = find_side(timetbls, b_part, to);
    match later_hurdle(footnotes, timetbls, places, counts.footnote, a, b, from, to) {
        Some(early) => Ok(Change::NoBefore(early)),
        None => judged(
            delivery, zones, stations, timetbls, changes, xfootnotes, xchanges, places, heads,
            counts, a, b, from, to,
        ),
    }
}

// The core of a change: a service, its rows, a stop and a day for either side, on tables that were found sound.
pub fn core_change(
    delivery: &[u64],
    zones: &[u64],
    stations: &[u64],
    footnotes: &[u64],
    timetbls: &[u64],
    changes: &[u64],
    xfootnotes: &[u64],
    xchanges: &[u64],
    places: &[u32],
    heads: &[u32],
    counts: StoreCounts,
    a_part: Part,
    b_part: Part,
    from: Call,
    to: Call,
) -> Result<Change, Reason>
    requires { Ready counts heads.now delivery.now zones.now stations.now footnotes.now timetbls.now changes.now xfootnotes.now
        xchanges.now
        × (from.day < longest)
        × (to.day < longest)
        × PartFor timetbls.now from.service a_part
        × PartFor timetbls.now to.service b_part }
    ensures { (R : PerFile (List Row))
        → RowsOf R delivery.now zones.now stations.now footnotes.now timetbls.now
        changes.now xfootnotes.now xchanges.now
        → result ≡ core_change R from to }
{
    if is_same(from, to) {
        return Ok(Change::NoBefore(Early::SameService));
    }
    later_change(
        delivery, zones, stations, footnotes, timetbls, changes, xfootnotes, xchanges, places,
        heads, counts, a_part, b_part, from, to,
    )
}

// THE PRECHECK

// The stop is one to change from, of so many: 2 to n.
fn may_end(stop: u64, stops: u64) -> bool
    ensures { result ≡ (leb 2 stop && leb stop stops) }
{
    if 2 <= stop {
        return stop <= stops;
    }
    false
}

// 12, 13, 14 for the service changed from, by its rows.
fn from_part(delivery: &[u64], used: usize, timetbls: &[u64], part: Part, v: Visit) -> Test
    requires { Stored Delivery used delivery.now × PartFor timetbls.now v.service part × BlocksTold timetbls.now }
    ensures { (R : PerFile (List Row))
        → R.delivery ≡ rows_in Delivery delivery.now
        → R.timetbls ≡ rows_in Timetbls timetbls.now
        → result ≡ asked_from R (side_of v) }
{
    let right = may_end(v.stop, service_rows::stops_told(timetbls, part));
    running::asked(delivery, used, part, right, v.date)
}

// And for the one changed to, whose stop is one that a leg begins at: 1 to n - 1.
fn to_part(delivery: &[u64], used: usize, timetbls: &[u64], part: Part, v: Visit) -> Test
    requires { Stored Delivery used delivery.now × PartFor timetbls.now v.service part × BlocksTold timetbls.now }
    ensures { (R : PerFile (List Row))
        → R.delivery ≡ rows_in Delivery delivery.now
        → R.timetbls ≡ rows_in Timetbls timetbls.now
        → result ≡ asked_to R (side_of v) }
{
    let right = running::is_leg(v.stop, service_rows::stops_told(timetbls, part));
    running::asked(delivery, used, part, right, v.date)
}

// The first of them alone, where the service changed to is known not to be there.
pub fn asked_from(
    delivery: &[u64],
    timetbls: &[u64],
    service_places: &[u32],
    counts: StoreCounts,
    v: Visit,
) -> Test
    requires { Stored Delivery counts.delivery delivery.now
        × Stored Timetbls counts.timetbls timetbls.now
        × BlocksTold timetbls.now }
    ensures { (R : PerFile (List Row))
        → R.delivery ≡ rows_in Delivery delivery.now
        → R.timetbls ≡ rows_in Timetbls timetbls.now
        → result ≡ asked_from R (side_of v) }
{
    let part = find_part(timetbls, counts.timetbls, service_places, v.service);
    from_part(delivery, counts.delivery, timetbls, part, v)
}

// A side with its date as the day counted from the first day.
fn call_of(delivery: &[u64], used: usize, v: Visit) -> Call
    requires { Stored Delivery used delivery.now }
    ensures { (R : PerFile (List Row)) → R.delivery ≡ rows_in Delivery delivery.now → result ≡ call_of R (side_of v) }
{
    Call {
        service: v.service,
        stop: v.stop,
        day: running::day_on(delivery, used, v.date),
    }
}

// Where A is right, by its rows: 12, 13, 14 for B, then the core.
fn change_to(
    delivery: &[u64],
    zones: &[u64],
    stations: &[u64],
    footnotes: &[u64],
    timetbls: &[u64],
    changes: &[u64],
    xfootnotes: &[u64],
    xchanges: &[u64],
    service_places: &[u32],
    places: &[u32],
    heads: &[u32],
    counts: StoreCounts,
    a_part: Part,
    from: Visit,
    to: Visit,
) -> Result<Change, Reason>
    requires { Ready counts heads.now delivery.now zones.now stations.now footnotes.now timetbls.now changes.now xfootnotes.now
        xchanges.now
        × PartFor timetbls.now from.service a_part
        × ((R : PerFile (List Row))
        → R.delivery ≡ rows_in Delivery delivery.now
        → R.timetbls ≡ rows_in Timetbls timetbls.now
        → asked_from R (side_of from) ≡ Ok tt) }
    ensures { (R : PerFile (List Row))
        → RowsOf R delivery.now zones.now stations.now footnotes.now timetbls.now
        changes.now xfootnotes.now xchanges.now
        → result ≡ change_after (precheck_of R (side_of from) (side_of to)) (core_change R (call_of R (side_of from)) (call_of R (side_of to))) }
{
    let b_part = find_part(timetbls, counts.timetbls, service_places, to.service);
    to_part(delivery, counts.delivery, timetbls, b_part, to)?;
    let a = call_of(delivery, counts.delivery, from);
    let b = call_of(delivery, counts.delivery, to);
    core_change(
        delivery, zones, stations, footnotes, timetbls, changes, xfootnotes, xchanges, places,
        heads, counts, a_part, b_part, a, b,
    )
}

// A change, on tables that were found sound: 12, 13, 14 for A, then for B, then the core. Either service is looked for once.
pub fn change_in(
    delivery: &[u64],
    zones: &[u64],
    stations: &[u64],
    footnotes: &[u64],
    timetbls: &[u64],
    changes: &[u64],
    xfootnotes: &[u64],
    xchanges: &[u64],
    service_places: &[u32],
    places: &[u32],
    heads: &[u32],
    counts: StoreCounts,
    from: Visit,
    to: Visit,
) -> Result<Change, Reason>
    requires { Ready counts heads.now delivery.now zones.now stations.now footnotes.now timetbls.now changes.now xfootnotes.now
        xchanges.now }
    ensures { (R : PerFile (List Row))
        → RowsOf R delivery.now zones.now stations.now footnotes.now timetbls.now
        changes.now xfootnotes.now xchanges.now
        → result ≡ change_after (precheck_of R (side_of from) (side_of to)) (core_change R (call_of R (side_of from)) (call_of R (side_of to))) }
{
    let a_part = find_part(timetbls, counts.timetbls, service_places, from.service);
    from_part(delivery, counts.delivery, timetbls, a_part, from)?;
    change_to(
        delivery,
        zones,
        stations,
        footnotes,
        timetbls,
        changes,
        xfootnotes,
        xchanges,
        service_places,
        places,
        heads,
        counts,
        a_part,
        from,
        to,
    )
}
