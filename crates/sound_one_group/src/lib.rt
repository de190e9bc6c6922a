// One group of a file is sound: each of its rows is one that a line of the group may leave after the rows before it, and it may end with them.
#![tactic(auto)]

ghost use Rattle.std.specs.Prelude.{◌≡◌, ◌*◌, ◌<◌, ◌≤◌, length};
ghost use Rattle.iff.specs.Tables.{row_width};
ghost use Rattle.iff.specs.declared.File.TheVariants.{Groups};
ghost use Rattle.iff_desk.specs.Sound.{sound_group};
ghost use Rattle.sound_group_rows.specs.Told.{Told, group_at};

use iff::{Form, GroupFile, GroupStand};
use references::GroupCounts;

// The group from row `from` on and before row `to`. The marks may be anything: none of its rows was remembered before its first.
pub fn is_group_sound(
    file: GroupFile,
    t: &[u64],
    w: usize,
    from: usize,
    to: usize,
    form: Form,
    counts: GroupCounts,
    companies: &[u64],
    modes: &[u64],
    stations: &[u64],
    services: &[u64],
    places: &[u32],
    xfootnotes: &[u64],
    marks: &mut [u8],
) -> bool
    requires { (w ≡ row_width (Groups file)) × (from < to) × (to * w ≤ length t.now) }
    ensures { Told form counts companies.now modes.now stations.now services.now
        xfootnotes.now (λ c. sound_group c file (group_at w t.now from to)) result }
{
    let mut stand = GroupStand::Opening;
    for i in from..to {
        if !sound_group_rows::is_sound_at(
            file, stand, t, w, from, i, form, counts, companies, modes, stations, services, places,
            xfootnotes, marks,
        ) {
            return false;
        }
        stand = group_order::group_moves(stand);
    }
    group_order::may_end(file, stand)
}
