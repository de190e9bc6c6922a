// What XCHANGES says of a change at a station: the best exception that applies. A table comes with the number of its rows in use; XCHANGES with an
// exact index of the stations that open its groups, and XFOOTNOTE with places, a hint where keys stand, on which nothing rests.
#![tactic(auto)]

ghost use Rattle.std.specs.Prelude.{◌≡◌, List, ◌*◌, ◌≤◌, length, None};
ghost use Rattle.iff.specs.Files.{PerFile};
ghost use Rattle.iff.specs.Lists.{kept};
ghost use Rattle.iff.specs.Tables.{Row, row_width, rows_in};
ghost use Rattle.iff.specs.declared.GroupFile.TheVariants.{Xfootnote, Xchanges};
ghost use Rattle.iff.specs.declared.File.TheVariants.{Groups};
ghost use Rattle.iff_desk.specs.Changing.{best as best_of, best_at};
ghost use Rattle.keys.specs.Blocks.{rows_between};
ghost use Rattle.slots.specs.Slots.{Index};
ghost use Rattle.store.specs.Found.{Stored};
ghost use Rattle.exception_rows.specs.Rows.{applies_by};

use iff::{File, GroupFile};
use iff_desk::Riding;

// The best of the rows from `from` on and before `to` that apply.
fn best_in(
    t: &[u64],
    from: usize,
    to: usize,
    xfootnotes: &[u64],
    used: usize,
    places: &[u32],
    a: Riding,
    b: Riding,
    day: u64,
) -> Option<iff_desk::Best>
    requires { (to * row_width (Groups Xchanges) ≤ length t.now) × Stored (Groups Xfootnote) used xfootnotes.now }
    ensures { result
        ≡ best_of None
        (kept (applies_by (rows_in (Groups Xfootnote) xfootnotes.now) a b day)
        (rows_between (row_width (Groups Xchanges)) t.now from to)) }
{
    let mut best = None;
    for i in from..to {
        best = exception_rows::best_with(t, i, best, xfootnotes, used, places, a, b, day);
    }
    best
}

// The best row of XCHANGES at a station, for a company and mode to change from and to, on a day counted from the first day.
pub fn best_at(
    xchanges: &[u64],
    used: usize,
    xfootnotes: &[u64],
    footnotes_used: usize,
    places: &[u32],
    heads: &[u32],
    station: u64,
    a: Riding,
    b: Riding,
    day: u64,
) -> Option<iff_desk::Best>
    requires { Stored (Groups Xchanges) used xchanges.now
        × Stored (Groups Xfootnote) footnotes_used xfootnotes.now
        × Index (Groups Xchanges) xchanges.now used (length heads.now) heads.now }
    ensures { (R : PerFile (List Row))
        → R.xchanges ≡ rows_in (Groups Xchanges) xchanges.now
        → R.xfootnote ≡ rows_in (Groups Xfootnote) xfootnotes.now
        → result ≡ best_at R station a b day }
{
    let group = store::find_group_surely(
        File::Groups(GroupFile::Xchanges),
        xchanges,
        used,
        heads,
        station,
    );
    best_in(
        xchanges,
        group.from + 1,
        group.to,
        xfootnotes,
        footnotes_used,
        places,
        a,
        b,
        day,
    )
}
