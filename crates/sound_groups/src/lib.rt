// Files of groups are sound: every row after the first line's stands in a group, and is one that a line of the group may leave.
#![tactic(auto)]

ghost use Rattle.std.specs.Prelude.{◌≡◌, ◌*◌, ◌≤◌, length};
ghost use Rattle.iff.specs.Tables.{row_width};
ghost use Rattle.iff.specs.declared.File.TheVariants.{Groups};
ghost use Rattle.iff_rules.specs.Rows.{Context};
ghost use Rattle.iff_desk.specs.Sound.{sound_groups};
ghost use Rattle.keys.specs.Blocks.{rows_between};
ghost use Rattle.references.specs.Agree.{GroupKeysAmong};
ghost use Rattle.sound_groups.specs.Marked.{told_by_marks};

use iff::{Form, GroupFile};
use references::GroupCounts;

// The same with marks, of which there are none before the first group.
fn walk_marked(
    file: GroupFile,
    t: &[u64],
    used: usize,
    form: Form,
    counts: GroupCounts,
    companies: &[u64],
    modes: &[u64],
    stations: &[u64],
    services: &[u64],
    places: &[u32],
    xfootnotes: &[u64],
) -> bool
    requires { (1 ≤ used) × (used * row_width (Groups file) ≤ length t.now) }
    ensures { (c : Context) → c.form ≡ form
        → GroupKeysAmong c counts companies.now modes.now stations.now services.now
        xfootnotes.now
        → result ≡ sound_groups c file (rows_between (row_width (Groups file)) t.now 1 used) }
{
    let mut marks = [0u8; 524288];
    group_walks::walk_groups(
        file, t, used, form, counts, companies, modes, stations, services, places, xfootnotes,
        &mut marks,
    )
}

// Whether marks tell the rows of a file's groups apart: those of one station, and not the periods of a zone.
fn is_told_by_marks(file: GroupFile) -> bool
    ensures { result ≡ told_by_marks file }
{
    match file {
        GroupFile::Timezone => false,
        GroupFile::Footnote => false,
        GroupFile::Changes => true,
        GroupFile::Xfootnote => false,
        GroupFile::Xchanges => true,
    }
}

// The groups behind the row of the first line, with marks where many rows may stand in one group: few are sooner compared with each other than the marks
// are cleared.
pub fn are_groups_sound(
    file: GroupFile,
    t: &[u64],
    used: usize,
    form: Form,
    counts: GroupCounts,
    companies: &[u64],
    modes: &[u64],
    stations: &[u64],
    services: &[u64],
    places: &[u32],
    xfootnotes: &[u64],
) -> bool
    requires { (1 ≤ used) × (used * row_width (Groups file) ≤ length t.now) }
    ensures { (c : Context) → c.form ≡ form
        → GroupKeysAmong c counts companies.now modes.now stations.now services.now
        xfootnotes.now
        → result ≡ sound_groups c file (rows_between (row_width (Groups file)) t.now 1 used) }
{
    if 200 < used && is_told_by_marks(file) {
        return walk_marked(
            file, t, used, form, counts, companies, modes, stations, services, places, xfootnotes,
        );
    }
    let mut no_marks = [0u8; 1];
    group_walks::walk_groups(
        file,
        t,
        used,
        form,
        counts,
        companies,
        modes,
        stations,
        services,
        places,
        xfootnotes,
        &mut no_marks,
    )
}
