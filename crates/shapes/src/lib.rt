// A row's words are those of a record: what soundness asks of every row before its meaning.
// The record's columns are the data of the crate `records`: a row has one word for each entry there, behind its tag, and then zeros. Only the
// vector, which is as wide as there are days, has functions of its own, in the crate `day_marks`.
#![tactic(auto)]

ghost use Rattle.std.specs.Prelude.{◌≡◌, suc, ◌-◌, ◌≤◌, ◌<◌, length, drop};
ghost use Rattle.std.proofs.Math.Seq.{slice};
ghost use Rattle.iff.specs.Columns.{record_of, record_fields};
ghost use Rattle.iff.specs.Values.{words_right, word_count};
ghost use Rattle.iff_desk.specs.Sound.{shaped};
ghost use Rattle.records.specs.Layouts.{fields, field_at, byte_of};
ghost use Rattle.field_words.specs.Fits.{word_fits};
ghost use Rattle.shapes.specs.Letters.{SameLetter};

// RECORDS, by file and tag

// A tag as the letter of a line. No record's letter is 0.
fn letter_of(tag: u64) -> u8
    ensures { SameLetter tag result }
{
    if tag < 256 { tag as u8 } else { 0 }
}

// The record that a row's tag says.
pub fn record_of(file: iff::File, tag: u64) -> iff::Record
    ensures { result ≡ record_of file tag }
{
    match file {
        iff::File::Delivery => iff::Record::FirstRecord,
        iff::File::Rows(f) => records::row_record(f),
        iff::File::Groups(f) => records::group_record(f, letter_of(tag)),
        iff::File::Timetbls => records::block_record(letter_of(tag)),
    }
}

// WORDS

// A word fits field `j` of those that leave a word.
fn fits_field(word: u64, j: usize) -> bool
    requires { j < 51 }
    ensures { result ≡ word_fits (byte_of (field_at j).class) (field_at j).width word }
{
    let e = records::entry_at(j);
    field_words::fits_class(e.2, e.1, word)
}

// The words behind the tag fit the fields from `first` on and before `end`.
fn are_words_right(row: &[u64], first: usize, end: usize) -> bool
    requires { (first ≤ end) × (end ≤ 51) × (end - first < length row.now) }
    ensures { result ≡ words_right (drop 1 row.now) (slice first end fields) }
{
    row[1..]
        .iter()
        .zip(first..end)
        .all(|(word, j)| fits_field(*word, j))
}

// ROWS

// A row's words are those of a record, and its other words are zero.
pub fn is_shaped(record: iff::Record, form: iff::Form, row: &[u64]) -> bool
    requires { suc (word_count (record_fields form «record»)) ≤ length row.now }
    ensures { result ≡ shaped (record_fields form «record») row.now }
{
    let s = records::spans_of(record);
    let to = s.1;
    if to == 0 {
        if !day_marks::are_marks_right(row, form.days) {
            return false;
        }
        return tables::zero_from(row, iff::limits::WIDEST_ROW);
    }
    let first = s.2;
    let end = s.3;
    if !are_words_right(row, first, end) {
        return false;
    }
    tables::zero_from(row, end - first + 1)
}
