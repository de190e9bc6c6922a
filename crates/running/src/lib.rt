// "Running day: service, leg, date. 12, 13, 14.", of a store that was found sound.
#![tactic(auto)]

ghost use Rattle.std.specs.Prelude.{◌≡◌, List, ◌&&◌, ℕ, leb, ltb};
ghost use Rattle.iff.specs.Files.{PerFile};
ghost use Rattle.iff.specs.Tables.{Row, row_width, rows_in};
ghost use Rattle.iff.specs.declared.GroupFile.TheVariants.{Footnote};
ghost use Rattle.iff.specs.declared.File.TheVariants.{Delivery, Groups, Timetbls};
ghost use Rattle.iff_desk.specs.Store.{service_rows, day_on};
ghost use Rattle.iff_desk.specs.Running.{runs_on, asked, runs, running_in};
ghost use Rattle.store.specs.Found.{Stored, rows_of, Inside};

use iff::{Reason, Test};
use store::Part;

// A service whose rows are this part of TIMETBLS, a stop or leg of it that is right or is not, and a date: 12, 13, 14.
pub fn asked(delivery: &[u64], used: usize, part: Part, right: bool, date: u64) -> Test
    requires { Stored Delivery used delivery.now }
    ensures { (R : PerFile (List Row)) (s : ℕ) (t : List ℕ)
        → R.delivery ≡ rows_in Delivery delivery.now
        → service_rows R s ≡ rows_of (row_width Timetbls) t part
        → result ≡ asked R s right date }
{
    if part.to <= part.from {
        return Err(Reason::NoService);
    }
    if !right {
        return Err(Reason::NoStop);
    }
    let first = store::first_word(delivery, used, iff::words::FIRST_DAY);
    let last = store::first_word(delivery, used, iff::words::LAST_DAY);
    if !calendar::in_period(first, date, last) {
        return Err(Reason::NoDate);
    }
    Ok(())
}

// The day of a date, counted from the first day.
pub fn day_on(delivery: &[u64], used: usize, date: u64) -> u64
    requires { Stored Delivery used delivery.now }
    ensures { (R : PerFile (List Row)) → R.delivery ≡ rows_in Delivery delivery.now → result ≡ day_on R date }
{
    let first = store::first_word(delivery, used, iff::words::FIRST_DAY);
    calendar::day_in(first, date)
}

// "A service runs on leg k on a date, that of its first departure, if the vector of that leg's `-` record has 1 on it, counted from the first day."
pub fn runs_on(
    timetbls: &[u64],
    part: Part,
    footnotes: &[u64],
    used: usize,
    places: &[u32],
    leg: u64,
    day: u64,
) -> bool
    requires { Inside (row_width Timetbls) timetbls.now part × Stored (Groups Footnote) used footnotes.now }
    ensures { (R : PerFile (List Row))
        → R.footnote ≡ rows_in (Groups Footnote) footnotes.now
        → result ≡ runs_on R (rows_of (row_width Timetbls) timetbls.now part) leg day }
{
    let row = service_rows::record_row(timetbls, part, iff::tags::DASH, leg);
    let footnote = store::word_of(timetbls, tables::BLOCK_WIDTH, row, iff::words::NAMED);
    vectors::is_marked(
        iff::GroupFile::Footnote,
        footnotes,
        used,
        places,
        footnote,
        day,
    )
}

// Legs are 1 to n - 1, of n stops.
pub fn is_leg(leg: u64, stops: u64) -> bool
    ensures { result ≡ (leb 1 leg && ltb leg stops) }
{
    if leg < 1 {
        return false;
    }
    leg < stops
}

fn runs(b: bool) -> Result<bool, iff::Reason>
    ensures { result ≡ runs b }
{
    if b { Ok(true) } else { Ok(false) }
}

// Does the service run on that leg on that date?
pub fn running_in(
    delivery: &[u64],
    delivery_used: usize,
    timetbls: &[u64],
    timetbls_used: usize,
    service_places: &[u32],
    footnotes: &[u64],
    footnotes_used: usize,
    footnote_places: &[u32],
    service: u64,
    leg: u64,
    date: u64,
) -> Result<bool, iff::Reason>
    requires { Stored Delivery delivery_used delivery.now
        × Stored Timetbls timetbls_used timetbls.now
        × Stored (Groups Footnote) footnotes_used footnotes.now }
    ensures { (R : PerFile (List Row))
        → R.delivery ≡ rows_in Delivery delivery.now
        → R.timetbls ≡ rows_in Timetbls timetbls.now
        → R.footnote ≡ rows_in (Groups Footnote) footnotes.now
        → result ≡ running_in R service leg date }
{
    let part = store::find_group(
        iff::File::Timetbls,
        timetbls,
        timetbls_used,
        service_places,
        service,
    );
    let right = is_leg(leg, service_rows::count_stops(timetbls, part));
    asked(delivery, delivery_used, part, right, date)?;
    let day = day_on(delivery, delivery_used, date);
    runs(runs_on(
        timetbls,
        part,
        footnotes,
        footnotes_used,
        footnote_places,
        leg,
        day,
    ))
}
