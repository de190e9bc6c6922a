// A footnote's vector in a sound store, and its mark on a day.
#![tactic(auto)]

ghost use Rattle.std.specs.Prelude.{◌≡◌, ◌/◌, ◌%◌, ◌^◌, ◌<◌, ◌≤◌, eqb};
ghost use Rattle.iff.specs.Tables.{rows_in, word};
ghost use Rattle.iff.specs.declared.File.TheVariants.{Groups};
ghost use Rattle.iff_desk.specs.Store.{marked, vector_of};
ghost use Rattle.store.specs.Found.{Stored, row_or, Stands};
ghost use Rattle.vectors.specs.Second.{second_of};

use store::Part;

// The row behind a group's `#`: of a footnote's group, its vector.
fn second_row(part: Part) -> Option<usize>
    requires { part.from ≤ part.to }
    ensures { result ≡ second_of part }
{
    if part.to - part.from > 1 {
        Some(part.from + 1)
    } else {
        None
    }
}

// Mark `bit` of a word.
fn bit_of(word: u64, bit: u64) -> bool
    requires { bit < 64 }
    ensures { result ≡ eqb (word / 2 ^ bit % 2) 1 }
{
    (word >> bit) % 2 == 1
}

// Word `k` of a row that was looked for; 0 where there is none, and beyond the row.
fn mark_word(t: &[u64], w: usize, row: Option<usize>, k: usize) -> u64
    requires { Stands w t.now row }
    ensures { result ≡ word (row_or w t.now row) k }
{
    if k < w {
        return store::word_of(t, w, row, k);
    }
    0
}

// The vector of a footnote has 1 on a day, counted from the first day.
pub fn is_marked(
    file: iff::GroupFile,
    t: &[u64],
    used: usize,
    places: &[u32],
    footnote: u64,
    day: u64,
) -> bool
    requires { Stored (Groups file) used t.now }
    ensures { result ≡ marked (vector_of (rows_in (Groups file) t.now) footnote) day }
{
    let w = tables::row_width(iff::File::Groups(file));
    let part = store::find_group(iff::File::Groups(file), t, used, places, footnote);
    let row = second_row(part);
    let k = (day / 64) as usize;
    let marks = mark_word(t, w, row, iff::words::MARKS + k);
    bit_of(marks, day % 64)
}
