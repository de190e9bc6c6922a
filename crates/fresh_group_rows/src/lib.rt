// One row of a file of groups against those of its group before it.
#![tactic(auto)]

ghost use Rattle.std.specs.Prelude.{◌≡◌, [], ◌+◌, ◌*◌, ◌≤◌, length, drop};
ghost use Rattle.iff.specs.Tables.{row_width};
ghost use Rattle.iff.specs.declared.File.TheVariants.{Groups};
ghost use Rattle.iff_rules.specs.Unique.{fresh_in_group};
ghost use Rattle.keys.specs.Blocks.{rows_between};
ghost use Rattle.group_marks.specs.Numbers.{Remembered};

use iff::{GroupFile, tags, words};

// The row clashes with none of its group before it, whose `#` is row `from`. Most are told to be new by their marks.
pub fn is_fresh(
    file: GroupFile,
    t: &[u64],
    from: usize,
    to: usize,
    row: &[u64],
    marks: &[u8],
) -> bool
    requires { (from ≤ to) × (to * row_width (Groups file) ≤ length t.now) × (length row.now ≡ row_width (Groups file))
        × Remembered file [] (from + 1) (drop 1 (rows_between (row_width (Groups file)) t.now from to)) marks.now }
    ensures { result ≡ fresh_in_group file (drop 1 (rows_between (row_width (Groups file)) t.now from to)) row.now }
{
    if row[words::TAG] == tags::HASH {
        return true;
    }
    if group_marks::is_told_new(file, from + 1, row, marks) {
        return true;
    }
    clashes::fresh_in_group(file, t, from + 1, to, row)
}
