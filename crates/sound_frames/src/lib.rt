// What soundness asks of every table alike: its first line's row, keys that are distinct, the length of the file it stands for, and unused places that
// are zero. On the way its keys go into the index.
#![tactic(auto)]

ghost use Rattle.std.specs.Prelude.{◌≡◌, true, ◌&&◌, ◌*◌, ◌≤◌, ◌<◌, length};
ghost use Rattle.iff.specs.Tables.{row_width, rows_in, keys_of, rising};
ghost use Rattle.iff_desk.specs.Sound.{distinct};
ghost use Rattle.keys.specs.Blocks.{rows_between};
ghost use Rattle.sound_frames.specs.Frames.{framed_rows, framed};

use iff::{File, Form, tags, words};

// A table with rows of which it is told that no key comes twice, and whether keys rise: the first line's row, then the length.
pub fn are_rows_framed_by(
    file: File,
    t: &[u64],
    used: usize,
    delivery: &[u64],
    form: Form,
    rise: bool,
) -> bool
    requires { (0 < used) × (used ≡ length (rows_in file t.now)) × (5 ≤ length delivery.now) }
    ensures { distinct (keys_of file (rows_between (row_width file) t.now 1 used)) ≡ true
        → rise ≡ rising (keys_of file (rows_between (row_width file) t.now 1 used))
        → result ≡ framed_rows form delivery.now file (rows_in file t.now) }
{
    let w = tables::row_width(file);
    if !sound_firsts::is_first_sound(file, &t[0..w], delivery, rise) {
        return false;
    }
    row_sizes::fits_limit(file, form, t, used)
}

// A table with rows: the first line's tag, then the keys, then the rest.
fn are_rows_framed(
    file: File,
    t: &[u64],
    used: usize,
    delivery: &[u64],
    form: Form,
    places: &mut [u32],
) -> bool
    requires { (0 < used) × (used ≡ length (rows_in file t.now)) × (5 ≤ length delivery.now) }
    ensures { result ≡ framed_rows form delivery.now file (rows_in file t.now) }
{
    if tables::word_or_zero(t, words::TAG) != tags::AT {
        return false;
    }
    let keys = index::index_keys(file, t, used, places);
    if !keys.distinct {
        return false;
    }
    are_rows_framed_by(file, t, used, delivery, form, keys.rise)
}

// One table, where all before it were sound: `so_far` hands a refusal on.
pub fn is_framed(
    so_far: bool,
    file: File,
    t: &[u64],
    used: usize,
    delivery: &[u64],
    form: Form,
    places: &mut [u32],
) -> bool
    requires { (used ≡ length (rows_in file t.now)) × (5 ≤ length delivery.now) }
    ensures { result ≡ (so_far && framed form delivery.now file t.now) }
{
    if !so_far {
        return false;
    }
    let w = tables::row_width(file);
    if !tables::zero_from(t, used * w) {
        return false;
    }
    if used == 0 {
        return true;
    }
    are_rows_framed(file, t, used, delivery, form, places)
}
