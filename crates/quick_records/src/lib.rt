// The records of a TIMETBLS block that are told to be right where they stand, each by one look at its picture, by its times and by what it names, and
// the words that they leave. One function a record, with its picture and the file that it names at the call: so the compiler knows each column's mark
// and where a key stands in its row. What is named is looked for at its place alone: what is missed there is left to others, as all that is not told.
// Here the service's first record, and those that name a company and a mode; `quick_footnotes` and `quick_stops` have the others.
#![tactic(auto)]

ghost use Rattle.std.specs.Prelude.{true, [], ◌∷◌, ◌<◌, ◌≤◌, length};
ghost use Rattle.iff.specs.Columns.{service_fields, number_fields, transport_fields};
ghost use Rattle.iff.specs.declared.RowFile.TheVariants.{Company, Trnsmode};
ghost use Rattle.iff.specs.declared.File.TheVariants.{Rows};
ghost use Rattle.quick_words.specs.Told.{Told, Tested};

use iff::{File, RowFile};
use quick_words::{Words, stop_word, untold};

// `#`, of a block of k lines and n stops
pub fn service_head(text: &[u8], at: usize, n: u64, k: u64) -> Words
    requires { at ≤ length text.now }
    ensures { 0 < result.width → Told text.now at service_fields n (k ∷ n ∷ []) result }
{
    if !quick_lines::looks(text, at, b"lnnnnnnnn") {
        return untold();
    }
    let end = at + 9;
    let line = &text[at..end];
    let service = text::number(&line[1..9]);
    Words {
        width: 9,
        one: service,
        two: k,
        three: n,
        four: 0,
    }
}

// `%`
pub fn train_number(
    text: &[u8],
    at: usize,
    n: u64,
    used: usize,
    companies: &[u64],
    places: &[u32],
) -> Words
    requires { at ≤ length text.now }
    ensures { 0 < result.width
        → Tested text.now at (number_fields 7) n true (Rows Company) used companies.now result.one result }
{
    if !quick_lines::looks(
        text,
        at,
        b"lnnn,nnnnn,ttttttt,nnn,nnn,tttttttttttttttttttttttttttttt",
    ) {
        return untold();
    }
    let end = at + 57;
    let line = &text[at..end];
    let company = text::number(&line[1..4]);
    let number = text::number(&line[5..10]);
    let first = stop_word(&line[19..22], n);
    let last = stop_word(&line[23..26], n);
    let Some(_) = key_places::found_by_place(
        File::Rows(RowFile::Company),
        companies,
        used,
        places,
        company,
    ) else {
        return untold();
    };
    Words {
        width: 57,
        one: company,
        two: number,
        three: first,
        four: last,
    }
}

// `&`
pub fn transport(
    text: &[u8],
    at: usize,
    n: u64,
    used: usize,
    modes: &[u64],
    places: &[u32],
) -> Words
    requires { at ≤ length text.now }
    ensures { 0 < result.width
        → Tested text.now at transport_fields n true (Rows Trnsmode) used modes.now result.one result }
{
    if !quick_lines::looks(text, at, b"lcccc,nnn,nnn") {
        return untold();
    }
    let end = at + 13;
    let line = &text[at..end];
    if fields::all_blank(&line[1..5]) {
        return untold();
    }
    let mode = text::code(&line[1..5]);
    let first = stop_word(&line[6..9], n);
    let last = stop_word(&line[10..13], n);
    let Some(_) = key_places::found_by_place(
        File::Rows(RowFile::Trnsmode),
        modes,
        used,
        places,
        mode,
    ) else {
        return untold();
    };
    Words {
        width: 13,
        one: mode,
        two: first,
        three: last,
        four: 0,
    }
}
