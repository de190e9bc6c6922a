// The groups of a file one after the other: every row after the first line's stands in a group, and each group is sound.
#![tactic(auto)]

ghost use Rattle.std.specs.Prelude.{◌≡◌, ◌*◌, ◌≤◌, length};
ghost use Rattle.iff.specs.Tables.{row_width};
ghost use Rattle.iff.specs.declared.File.TheVariants.{Groups};
ghost use Rattle.iff_rules.specs.Rows.{Context};
ghost use Rattle.iff_desk.specs.Sound.{sound_groups};
ghost use Rattle.keys.specs.Blocks.{rows_between};
ghost use Rattle.references.specs.Agree.{GroupKeysAmong};

use iff::{File, Form, GroupFile};
use references::GroupCounts;

// The groups behind the row of the first line, up to row `used`. No row stands before the first of them.
pub fn walk_groups(
    file: GroupFile,
    t: &[u64],
    used: usize,
    form: Form,
    counts: GroupCounts,
    companies: &[u64],
    modes: &[u64],
    stations: &[u64],
    services: &[u64],
    places: &[u32],
    xfootnotes: &[u64],
    marks: &mut [u8],
) -> bool
    requires { (1 ≤ used) × (used * row_width (Groups file) ≤ length t.now) }
    ensures { (c : Context) → c.form ≡ form
        → GroupKeysAmong c counts companies.now modes.now stations.now services.now
        xfootnotes.now
        → result ≡ sound_groups c file (rows_between (row_width (Groups file)) t.now 1 used) }
{
    let w = tables::row_width(File::Groups(file));
    let first = walks::next_head(t, w, 1, used);
    if first != 1 {
        return false;
    }
    let mut i = first;
    // A loop by hand: how many rows a group has is known only once the next `#` is found, so no range says where the next begins.
    while i < used {
        let next = walks::next_head(t, w, i + 1, used);
        if !sound_one_group::is_group_sound(
            file, t, w, i, next, form, counts, companies, modes, stations, services, places,
            xfootnotes, marks,
        ) {
            return false;
        }
        i = next;
    }
    true
}
