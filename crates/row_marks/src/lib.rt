// What is remembered of the lines of a file of rows by marks, so that nearly every new key and every new text is told to be new without a search.
// Marks have to be cleared before a file is read, which would cost a short file more than its searches: where less is lent than marks take,
// nothing is marked, and everything is searched for.
#![tactic(auto)]

ghost use Rattle.std.specs.Prelude.{◌≡◌, not, map};
ghost use Rattle.iff.specs.Lists.{has};
ghost use Rattle.iff.specs.Lines.{lines};
ghost use Rattle.iff.specs.declared.File.TheVariants.{Rows};
ghost use Rattle.iff_rules.specs.Unique.{fresh_texts};
ghost use Rattle.keys.specs.Lookup.{keys_in};
ghost use Rattle.fresh_keys.specs.Runs.{run_of};
ghost use Rattle.fresh_texts.specs.Texts.{as_line};
ghost use Rattle.text_numbers.specs.Numbers.{numbers_of};
ghost use Rattle.row_marks.specs.Remembered.{spread_of, Remembers, LineMarked};

use fresh_keys::KeyRun;
use iff::{File, RowFile};

// How many bytes marks take.
pub const MARKS: usize = 524288;

// A key's number. Codes end in blanks, and differ in few bits: the marks of codes themselves would be shared by many.
fn spread(key: u64) -> u64
    ensures { result ≡ spread_of key }
{
    (key % 4294967296 * 2654435761 + key / 4294967296 * 1597334677) / 65536
}

// A key that the table does not have yet.
pub fn is_key_new(file: RowFile, marks: &[u8], run: KeyRun, t: &[u64], key: u64) -> bool
    requires { (run ≡ run_of (keys_in (Rows file) t.now)) × Remembers marks.now (map spread_of (keys_in (Rows file) t.now)) }
    ensures { result ≡ not (has key (keys_in (Rows file) t.now)) }
{
    if marks.len() == MARKS {
        if marks::is_unmarked(marks, spread(key)) {
            return true;
        }
    }
    fresh_keys::is_fresh(File::Rows(file), run, t, key)
}

// The line's unique texts are those of no line before.
pub fn are_texts_new(file: RowFile, marks: &[u8], before: &[u8], line: &[u8]) -> bool
    requires { Remembers marks.now (numbers_of file (lines before.now)) }
    ensures { result ≡ fresh_texts file (lines before.now) (as_line line.now) }
{
    if marks.len() == MARKS {
        if text_numbers::are_texts_unmarked(file, marks, line) {
            return true;
        }
    }
    fresh_texts::fresh_texts(file, before, line)
}

// Marks a line's key and its unique texts.
pub fn mark_line(file: RowFile, marks: &mut [u8], key: u64, line: &[u8])
    ensures { LineMarked file line.now key marks.old marks.new }
{
    if marks.len() == MARKS {
        marks::mark(marks, spread(key));
        text_numbers::mark_texts(file, marks, line);
    }
}
