// Rows of XCHANGES: whether one applies to a change on a day, and the better of one and the best before it.
#![tactic(auto)]

ghost use Rattle.std.specs.Prelude.{◌≡◌, ◌+◌, ◌*◌, ◌≤◌, length};
ghost use Rattle.iff.specs.Tables.{row_width, row_at, rows_in};
ghost use Rattle.iff.specs.declared.GroupFile.TheVariants.{Xfootnote, Xchanges};
ghost use Rattle.iff.specs.declared.File.TheVariants.{Groups};
ghost use Rattle.iff.specs.Words.{exception_footnote};
ghost use Rattle.iff_desk.specs.Store.{marked, vector_of};
ghost use Rattle.iff_desk.specs.Changing.{from_keys, to_keys};
ghost use Rattle.store.specs.Found.{Stored};
ghost use Rattle.exception_rows.specs.Rows.{applies_by, weigh, best_with};

use iff::{GroupFile, words};
use iff_desk::Riding;

// How many words a row of XCHANGES has.
const EXCEPTION_WIDTH: usize = 7;

// The keys of row `i` for the service changed from, and for the one changed to.
fn from_keys(t: &[u64], i: usize) -> Riding
    requires { i * row_width (Groups Xchanges) + row_width (Groups Xchanges) ≤ length t.now }
    ensures { result ≡ from_keys (row_at (row_width (Groups Xchanges)) t.now i) }
{
    Riding {
        company: tables::word_at(t, EXCEPTION_WIDTH, i, words::FROM_COMPANY),
        mode: tables::word_at(t, EXCEPTION_WIDTH, i, words::FROM_MODE),
    }
}

fn to_keys(t: &[u64], i: usize) -> Riding
    requires { i * row_width (Groups Xchanges) + row_width (Groups Xchanges) ≤ length t.now }
    ensures { result ≡ to_keys (row_at (row_width (Groups Xchanges)) t.now i) }
{
    Riding {
        company: tables::word_at(t, EXCEPTION_WIDTH, i, words::TO_COMPANY),
        mode: tables::word_at(t, EXCEPTION_WIDTH, i, words::TO_MODE),
    }
}

// The vector of row `i` has 1 on the day.
fn is_marked_at(
    t: &[u64],
    i: usize,
    xfootnotes: &[u64],
    used: usize,
    places: &[u32],
    day: u64,
) -> bool
    requires { (i * row_width (Groups Xchanges) + row_width (Groups Xchanges) ≤ length t.now) × Stored (Groups Xfootnote) used xfootnotes.now }
    ensures { result
        ≡ marked
        (vector_of (rows_in (Groups Xfootnote) xfootnotes.now) (exception_footnote (row_at (row_width (Groups Xchanges)) t.now i)))
        day }
{
    let footnote = tables::word_at(t, EXCEPTION_WIDTH, i, words::EXCEPTION_FOOTNOTE);
    vectors::is_marked(
        GroupFile::Xfootnote,
        xfootnotes,
        used,
        places,
        footnote,
        day,
    )
}

// Row `i` applies: its four keys fit, and its vector has 1 on the day.
fn applies(
    t: &[u64],
    i: usize,
    xfootnotes: &[u64],
    used: usize,
    places: &[u32],
    a: Riding,
    b: Riding,
    day: u64,
) -> bool
    requires { (i * row_width (Groups Xchanges) + row_width (Groups Xchanges) ≤ length t.now) × Stored (Groups Xfootnote) used xfootnotes.now }
    ensures { result ≡ applies_by (rows_in (Groups Xfootnote) xfootnotes.now) a b day (row_at (row_width (Groups Xchanges)) t.now i) }
{
    if verdicts::fits(from_keys(t, i), a) {
        if verdicts::fits(to_keys(t, i), b) {
            return is_marked_at(t, i, xfootnotes, used, places, day);
        }
        return false;
    }
    false
}

// The better of row `i` and the best before it.
fn weighed(t: &[u64], i: usize, best: Option<iff_desk::Best>) -> Option<iff_desk::Best>
    requires { i * row_width (Groups Xchanges) + row_width (Groups Xchanges) ≤ length t.now }
    ensures { result ≡ weigh best (row_at (row_width (Groups Xchanges)) t.now i) }
{
    let from = from_keys(t, i);
    let to = to_keys(t, i);
    let time = tables::word_at(t, EXCEPTION_WIDTH, i, words::EXCEPTION_TIME);
    verdicts::better(best, ranks::rank(from, to), time)
}

// The best with row `i`, where it applies.
pub fn best_with(
    t: &[u64],
    i: usize,
    best: Option<iff_desk::Best>,
    xfootnotes: &[u64],
    used: usize,
    places: &[u32],
    a: Riding,
    b: Riding,
    day: u64,
) -> Option<iff_desk::Best>
    requires { (i * row_width (Groups Xchanges) + row_width (Groups Xchanges) ≤ length t.now) × Stored (Groups Xfootnote) used xfootnotes.now }
    ensures { result
        ≡ best_with (applies_by (rows_in (Groups Xfootnote) xfootnotes.now) a b day) best
        (row_at (row_width (Groups Xchanges)) t.now i) }
{
    if applies(t, i, xfootnotes, used, places, a, b, day) {
        return weighed(t, i, best);
    }
    best
}
