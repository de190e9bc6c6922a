// The needed time of a change, of a store that was found sound: the pair of CHANGES, the station's flag, the best row of XCHANGES, the station's time.
// What the answer does not need is not looked for.
#![tactic(auto)]

ghost use Rattle.std.specs.Prelude.{◌≡◌, List, ◌-◌, length, None};
ghost use Rattle.iff.specs.Files.{PerFile};
ghost use Rattle.iff.specs.Tables.{Row, row_width, rows_in};
ghost use Rattle.iff.specs.Words.{named, change_flag, change_time};
ghost use Rattle.iff.specs.declared.RowFile.TheVariants.{Stations};
ghost use Rattle.iff.specs.declared.GroupFile.TheVariants.{Changes, Xfootnote, Xchanges};
ghost use Rattle.iff.specs.declared.File.TheVariants.{Rows, Groups, Timetbls};
ghost use Rattle.iff_desk.specs.Store.{record_on, station_row};
ghost use Rattle.iff_desk.specs.Changing.{riding_on, core};
ghost use Rattle.slots.specs.Slots.{Index};
ghost use Rattle.store.specs.Found.{Stored, rows_of, Inside};
ghost use Rattle.needed_times.specs.Needed.{rows_found, best_for, verdict_on};

use iff::{tags, words};
use iff_desk::{Call, Change, Riding};
use store::Part;

// Rows in use of the tables that a change reads.
#[derive(Clone, Copy)]
pub struct StoreCounts {
    pub delivery: usize,
    pub timezone: usize,
    pub stations: usize,
    pub footnote: usize,
    pub timetbls: usize,
    pub changes: usize,
    pub xfootnote: usize,
    pub xchanges: usize,
}

// One side as it was found: the service's rows, the row of the stop, and the station there.
#[derive(Clone, Copy)]
pub struct SideRows {
    pub part: Part,
    pub row: Option<usize>,
    pub station: u64,
}

// The leg that ends at a stop.
pub fn leg_before(stop: u64) -> u64
    ensures { result ≡ stop - 1 }
{
    if stop == 0 { 0 } else { stop - 1 }
}

// What the record of a kind names that a leg lies in.
fn named_on(timetbls: &[u64], part: Part, kind: u64, leg: u64) -> u64
    requires { Inside (row_width Timetbls) timetbls.now part }
    ensures { result ≡ named (record_on kind leg (rows_of (row_width Timetbls) timetbls.now part)) }
{
    let row = service_rows::record_row(timetbls, part, kind, leg);
    store::word_of(timetbls, tables::BLOCK_WIDTH, row, words::NAMED)
}

// Company and mode of a service on a leg.
pub fn riding_on(timetbls: &[u64], part: Part, leg: u64) -> Riding
    requires { Inside (row_width Timetbls) timetbls.now part }
    ensures { result ≡ riding_on (rows_of (row_width Timetbls) timetbls.now part) leg }
{
    Riding {
        company: named_on(timetbls, part, tags::PERCENT, leg),
        mode: named_on(timetbls, part, tags::AMPERSAND, leg),
    }
}

// The best row of XCHANGES at the station, for A on leg i - 1 and B on leg j, on A's day.
fn best_for(
    timetbls: &[u64],
    xfootnotes: &[u64],
    xchanges: &[u64],
    places: &[u32],
    heads: &[u32],
    counts: StoreCounts,
    a: SideRows,
    b: SideRows,
    from: Call,
    to: Call,
) -> Option<iff_desk::Best>
    requires { Stored (Groups Xfootnote) counts.xfootnote xfootnotes.now
        × Stored (Groups Xchanges) counts.xchanges xchanges.now
        × Inside (row_width Timetbls) timetbls.now a.part
        × Inside (row_width Timetbls) timetbls.now b.part
        × Index (Groups Xchanges) xchanges.now counts.xchanges (length heads.now) heads.now }
    ensures { (R : PerFile (List Row))
        → R.xfootnote ≡ rows_in (Groups Xfootnote) xfootnotes.now
        → R.xchanges ≡ rows_in (Groups Xchanges) xchanges.now
        → result ≡ best_for R (rows_found timetbls.now a) (rows_found timetbls.now b) a.station from to }
{
    let vector_day = from.day;
    let leg = leg_before(from.stop);
    let riding = riding_on(timetbls, a.part, leg);
    let next = riding_on(timetbls, b.part, to.stop);
    exceptions::best_at(
        xchanges,
        counts.xchanges,
        xfootnotes,
        counts.xfootnote,
        places,
        heads,
        a.station,
        riding,
        next,
        vector_day,
    )
}

// Where the two services have no row of CHANGES at the station.
fn without_pair(
    gap: i32,
    stations: &[u64],
    timetbls: &[u64],
    xfootnotes: &[u64],
    xchanges: &[u64],
    places: &[u32],
    heads: &[u32],
    counts: StoreCounts,
    a: SideRows,
    b: SideRows,
    from: Call,
    to: Call,
) -> Change
    requires { Stored (Rows Stations) counts.stations stations.now
        × Stored (Groups Xfootnote) counts.xfootnote xfootnotes.now
        × Stored (Groups Xchanges) counts.xchanges xchanges.now
        × Inside (row_width Timetbls) timetbls.now a.part
        × Inside (row_width Timetbls) timetbls.now b.part
        × Index (Groups Xchanges) xchanges.now counts.xchanges (length heads.now) heads.now }
    ensures { (R : PerFile (List Row))
        → R.stations ≡ rows_in (Rows Stations) stations.now
        → R.xfootnote ≡ rows_in (Groups Xfootnote) xfootnotes.now
        → R.xchanges ≡ rows_in (Groups Xchanges) xchanges.now
        → result
        ≡ core gap None (change_flag (station_row R a.station))
        (best_for R (rows_found timetbls.now a) (rows_found timetbls.now b) a.station from to)
        (change_time (station_row R a.station)) }
{
    let row = store::find_station(stations, counts.stations, places, a.station);
    let flag = store::word_of(stations, store::STATION_WIDTH, row, words::CHANGE_FLAG);
    if flag == 0 {
        return verdicts::core(gap, None, 0, None, 0);
    }
    let time = store::word_of(stations, store::STATION_WIDTH, row, words::CHANGE_TIME);
    let best = best_for(
        timetbls, xfootnotes, xchanges, places, heads, counts, a, b, from, to,
    );
    verdicts::core(gap, None, flag, best, time)
}

// The verdict on a gap, by the first that gives a needed time or forbids the change.
pub fn by_needed(
    gap: i32,
    stations: &[u64],
    timetbls: &[u64],
    changes: &[u64],
    xfootnotes: &[u64],
    xchanges: &[u64],
    places: &[u32],
    heads: &[u32],
    counts: StoreCounts,
    a: SideRows,
    b: SideRows,
    from: Call,
    to: Call,
) -> Change
    requires { Stored (Rows Stations) counts.stations stations.now
        × Stored (Groups Changes) counts.changes changes.now
        × Stored (Groups Xfootnote) counts.xfootnote xfootnotes.now
        × Stored (Groups Xchanges) counts.xchanges xchanges.now
        × Inside (row_width Timetbls) timetbls.now a.part
        × Inside (row_width Timetbls) timetbls.now b.part
        × Index (Groups Changes) changes.now counts.changes (length heads.now) heads.now
        × Index (Groups Xchanges) xchanges.now counts.xchanges (length heads.now) heads.now }
    ensures { (R : PerFile (List Row))
        → R.stations ≡ rows_in (Rows Stations) stations.now
        → R.changes ≡ rows_in (Groups Changes) changes.now
        → R.xfootnote ≡ rows_in (Groups Xfootnote) xfootnotes.now
        → R.xchanges ≡ rows_in (Groups Xchanges) xchanges.now
        → result ≡ verdict_on R gap (rows_found timetbls.now a) (rows_found timetbls.now b) a.station from to }
{
    let pair = pairs::pair_at(
        changes,
        counts.changes,
        heads,
        a.station,
        from.service,
        to.service,
    );
    match pair {
        Some(p) => verdicts::core(gap, Some(p), 0, None, 0),
        None => without_pair(
            gap, stations, timetbls, xfootnotes, xchanges, places, heads, counts, a, b, from, to,
        ),
    }
}
