// The stations that have a group in CHANGES or XCHANGES, put into the slots of an index: so that a station that has none is told without a search.
#![tactic(auto)]

ghost use Rattle.std.specs.Prelude.{◌≡◌, false, length};
ghost use Rattle.iff.specs.declared.GroupFile.TheVariants.{Changes, Xchanges};
ghost use Rattle.iff.specs.declared.File.TheVariants.{Groups};
ghost use Rattle.slots.specs.Slots.{names_at, Index, Kept};
ghost use Rattle.store.specs.Found.{Stored};

use iff::{File, GroupFile};

// Both tables share the slots, with whatever is in them already: a row that stands there is tested in the table that is asked. An index that they were
// of another table they still are.
pub fn index_heads(
    changes: &[u64],
    change_rows: usize,
    xchanges: &[u64],
    exception_rows: usize,
    places: &mut [u32],
)
    requires { Stored (Groups Changes) change_rows changes.now
        × Stored (Groups Xchanges) exception_rows xchanges.now
        × (names_at (Groups Changes) changes.now 0 ≡ false)
        × (names_at (Groups Xchanges) xchanges.now 0 ≡ false) }
    ensures { Index (Groups Changes) changes.now change_rows (length places.new) places.new
        × Index (Groups Xchanges) xchanges.now exception_rows (length places.new) places.new
        × Kept places.old places.new }
{
    index::index_keys(
        File::Groups(GroupFile::Changes),
        changes,
        change_rows,
        places,
    );
    index::index_keys(
        File::Groups(GroupFile::Xchanges),
        xchanges,
        exception_rows,
        places,
    );
}
