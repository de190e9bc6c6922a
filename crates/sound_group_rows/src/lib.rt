// One row of a file of groups is sound: it is one that a line of its group may leave after the rows before it. One that is sound is remembered, by which
// nearly every later row of its group is told to be new without a look at the others.
#![tactic(auto)]

ghost use Rattle.std.specs.Prelude.{◌≡◌, [], ◌+◌, ◌*◌, ◌≤◌, length, drop};
ghost use Rattle.iff.specs.Tables.{row_at, row_width};
ghost use Rattle.iff.specs.declared.File.TheVariants.{Groups};
ghost use Rattle.iff_rules.specs.Order.{group_stand};
ghost use Rattle.keys.specs.Blocks.{rows_between};
ghost use Rattle.group_marks.specs.Numbers.{Remembered};
ghost use Rattle.sound_group_rows.specs.Told.{RowTold};

use iff::{Form, GroupFile, GroupStand};
use references::GroupCounts;

// A row of a group after those from row `from` on and before row `i`. One that is sound is remembered.
fn is_row_sound(
    file: GroupFile,
    stand: GroupStand,
    t: &[u64],
    from: usize,
    i: usize,
    row: &[u64],
    form: Form,
    counts: GroupCounts,
    companies: &[u64],
    modes: &[u64],
    stations: &[u64],
    services: &[u64],
    places: &[u32],
    xfootnotes: &[u64],
    marks: &mut [u8],
) -> bool
    requires { (from ≤ i) × (i * row_width (Groups file) ≤ length t.now) × (length row.now ≡ row_width (Groups file))
        × (stand ≡ group_stand (rows_between (row_width (Groups file)) t.now from i))
        × Remembered file [] (from + 1) (drop 1 (rows_between (row_width (Groups file)) t.now from i)) marks.old }
    ensures { RowTold form counts companies.now modes.now stations.now services.now
        xfootnotes.now file from (rows_between (row_width (Groups file)) t.now from i) row.now
        marks.new result }
{
    if !group_row_tests::is_right_alone(file, stand, row, form) {
        return false;
    }
    if !fresh_group_rows::is_fresh(file, t, from, i, row, marks) {
        return false;
    }
    if !group_references::met_in_group(
        file, row, counts, companies, modes, stations, services, places, xfootnotes,
    ) {
        return false;
    }
    group_marks::remember(file, from + 1, row, marks);
    true
}

// Row `i` of a table, likewise.
pub fn is_sound_at(
    file: GroupFile,
    stand: GroupStand,
    t: &[u64],
    w: usize,
    from: usize,
    i: usize,
    form: Form,
    counts: GroupCounts,
    companies: &[u64],
    modes: &[u64],
    stations: &[u64],
    services: &[u64],
    places: &[u32],
    xfootnotes: &[u64],
    marks: &mut [u8],
) -> bool
    requires { (w ≡ row_width (Groups file)) × (from ≤ i) × (i * w + w ≤ length t.now) × (stand ≡ group_stand (rows_between w t.now from i))
        × Remembered file [] (from + 1) (drop 1 (rows_between w t.now from i)) marks.old }
    ensures { RowTold form counts companies.now modes.now stations.now services.now
        xfootnotes.now file from (rows_between w t.now from i) (row_at w t.now i) marks.new result }
{
    let start = i * w;
    let end = start + w;
    is_row_sound(
        file,
        stand,
        t,
        from,
        i,
        &t[start..end],
        form,
        counts,
        companies,
        modes,
        stations,
        services,
        places,
        xfootnotes,
        marks,
    )
}
