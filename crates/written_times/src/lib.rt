// A stop's times as its row has them, and whether somebody may alight or board there.
#![tactic(auto)]

ghost use Rattle.std.specs.Prelude.{◌≡◌, List, ℕ};
ghost use Rattle.iff.specs.Files.{PerFile};
ghost use Rattle.iff.specs.Tables.{Row, row_width};
ghost use Rattle.iff.specs.declared.File.TheVariants.{Timetbls};
ghost use Rattle.iff_desk.specs.Store.{stop_at};
ghost use Rattle.iff_desk.specs.Stops.{arrival_of, departure_of, may_alight, may_board};
ghost use Rattle.store.specs.Found.{row_or, Stands};

use iff::{tags, words};

// No time: of a `+` it says that nobody alights, or that nobody boards.
const NO_TIME: u64 = 9999;

// A STOP'S TIMES AS WRITTEN, 9999 for none: `>` has no arrival, `<` no departure, `.` gives both.

pub fn arrival_of(t: &[u64], row: Option<usize>) -> u64
    requires { Stands (row_width Timetbls) t.now row }
    ensures { result ≡ arrival_of (row_or (row_width Timetbls) t.now row) }
{
    if store::word_of(t, tables::BLOCK_WIDTH, row, words::TAG) == tags::GREATER {
        return NO_TIME;
    }
    store::word_of(t, tables::BLOCK_WIDTH, row, words::ARRIVAL)
}

pub fn departure_of(t: &[u64], row: Option<usize>) -> u64
    requires { Stands (row_width Timetbls) t.now row }
    ensures { result ≡ departure_of (row_or (row_width Timetbls) t.now row) }
{
    let tag = store::word_of(t, tables::BLOCK_WIDTH, row, words::TAG);
    if tag == tags::LESS {
        return NO_TIME;
    }
    if tag == tags::PLUS {
        return store::word_of(t, tables::BLOCK_WIDTH, row, words::DEPARTURE);
    }
    store::word_of(t, tables::BLOCK_WIDTH, row, words::STOP_TIME)
}

// Somebody may alight at a stop, and board there: 9999 says that nobody does. It is so on every day. The stop is told by its row.
pub fn may_alight(t: &[u64], row: Option<usize>) -> bool
    requires { Stands (row_width Timetbls) t.now row }
    ensures { (R : PerFile (List Row)) (rows : List Row) (number day : ℕ)
        → stop_at rows number ≡ row_or (row_width Timetbls) t.now row
        → result ≡ may_alight R rows number day }
{
    arrival_of(t, row) != NO_TIME
}

pub fn may_board(t: &[u64], row: Option<usize>) -> bool
    requires { Stands (row_width Timetbls) t.now row }
    ensures { (R : PerFile (List Row)) (rows : List Row) (number day : ℕ)
        → stop_at rows number ≡ row_or (row_width Timetbls) t.now row
        → result ≡ may_board R rows number day }
{
    departure_of(t, row) != NO_TIME
}
