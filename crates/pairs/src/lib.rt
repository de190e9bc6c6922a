// What CHANGES says of a change at a station: the row of two services. The table comes with the number of its rows in use, and with an exact index of
// the stations that open its groups.
#![tactic(auto)]

ghost use Rattle.std.specs.Prelude.{◌≡◌, List, ◌+◌, ◌*◌, ◌≤◌, length};
ghost use Rattle.iff.specs.Files.{PerFile};
ghost use Rattle.iff.specs.Lists.{kept};
ghost use Rattle.iff.specs.Tables.{Row, row_width, row_at, rows_in};
ghost use Rattle.iff.specs.declared.GroupFile.TheVariants.{Changes};
ghost use Rattle.iff.specs.declared.File.TheVariants.{Groups};
ghost use Rattle.iff_desk.specs.Changing.{pair_in as pair_of, pair_at};
ghost use Rattle.keys.specs.Blocks.{rows_between};
ghost use Rattle.slots.specs.Slots.{Index};
ghost use Rattle.store.specs.Found.{Stored};
ghost use Rattle.pairs.specs.Rows.{is_pair};

use iff::{File, GroupFile, words};

// How many words a row of CHANGES has.
const PAIR_WIDTH: usize = 6;

// Row `i` is that of two services.
fn is_pair(t: &[u64], i: usize, a: u64, b: u64) -> bool
    requires { i * row_width (Groups Changes) + row_width (Groups Changes) ≤ length t.now }
    ensures { result ≡ is_pair a b (row_at (row_width (Groups Changes)) t.now i) }
{
    if tables::word_at(t, PAIR_WIDTH, i, words::FROM_SERVICE) == a {
        return tables::word_at(t, PAIR_WIDTH, i, words::TO_SERVICE) == b;
    }
    false
}

// The first row of two services, of the rows from `from` on and before `to`: its possibility.
fn pair_in(t: &[u64], from: usize, to: usize, a: u64, b: u64) -> Option<u64>
    requires { to * row_width (Groups Changes) ≤ length t.now }
    ensures { result ≡ pair_of (kept (is_pair a b) (rows_between (row_width (Groups Changes)) t.now from to)) }
{
    for i in from..to {
        if is_pair(t, i, a, b) {
            return Some(tables::word_at(t, PAIR_WIDTH, i, words::POSSIBILITY));
        }
    }
    None
}

// The row of two services at a station.
pub fn pair_at(
    changes: &[u64],
    used: usize,
    heads: &[u32],
    station: u64,
    a: u64,
    b: u64,
) -> Option<u64>
    requires { Stored (Groups Changes) used changes.now × Index (Groups Changes) changes.now used (length heads.now) heads.now }
    ensures { (R : PerFile (List Row)) → R.changes ≡ rows_in (Groups Changes) changes.now → result ≡ pair_at R station a b }
{
    let group = store::find_group_surely(
        File::Groups(GroupFile::Changes),
        changes,
        used,
        heads,
        station,
    );
    pair_in(changes, group.from + 1, group.to, a, b)
}
