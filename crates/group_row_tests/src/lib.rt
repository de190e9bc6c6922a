// One row of a file of groups by itself, as "Soundness" of document 01 asks for it.
#![tactic(auto)]

ghost use Rattle.std.specs.Prelude.{◌≡◌, length};
ghost use Rattle.iff.specs.Tables.{row_width};
ghost use Rattle.iff.specs.declared.File.TheVariants.{Groups};
ghost use Rattle.group_row_tests.specs.Alone.{right_alone};

use iff::{File, Form, GroupFile, GroupStand, words};

// What needs no other row: where the group stands the row may come, its words are those of its record, and its numbers are right.
pub fn is_right_alone(file: GroupFile, stand: GroupStand, row: &[u64], form: Form) -> bool
    requires { length row.now ≡ row_width (Groups file) }
    ensures { result ≡ right_alone form file stand row.now }
{
    let tag = row[words::TAG];
    if !group_order::may_follow(file, stand, tag) {
        return false;
    }
    let record = shapes::record_of(File::Groups(file), tag);
    if !shapes::is_shaped(record, form, row) {
        return false;
    }
    meanings::group_means(file, row)
}
