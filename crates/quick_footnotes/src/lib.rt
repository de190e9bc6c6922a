// The records of a TIMETBLS block that name a footnote, told to be right where they stand, and the words that they leave: as `quick_records` has it.
#![tactic(auto)]

ghost use Rattle.std.specs.Prelude.{true, ◌<◌, ◌≤◌, length};
ghost use Rattle.iff.specs.Columns.{validity_fields, attribute_fields, platform_fields};
ghost use Rattle.iff.specs.declared.GroupFile.TheVariants.{Footnote};
ghost use Rattle.iff.specs.declared.File.TheVariants.{Groups};
ghost use Rattle.quick_words.specs.Told.{Tested};

use iff::{File, GroupFile};
use quick_words::{Words, stop_word, untold};

// `-`
pub fn validity(
    text: &[u8],
    at: usize,
    n: u64,
    used: usize,
    footnotes: &[u64],
    places: &[u32],
) -> Words
    requires { at ≤ length text.now }
    ensures { 0 < result.width
        → Tested text.now at validity_fields n true (Groups Footnote) used footnotes.now result.one result }
{
    if !quick_lines::looks(text, at, b"lnnnnn,nnn,nnn") {
        return untold();
    }
    let end = at + 14;
    let line = &text[at..end];
    let footnote = text::number(&line[1..6]);
    let first = stop_word(&line[7..10], n);
    let last = stop_word(&line[11..14], n);
    let Some(_) = key_places::found_by_place(
        File::Groups(GroupFile::Footnote),
        footnotes,
        used,
        places,
        footnote,
    ) else {
        return untold();
    };
    Words {
        width: 14,
        one: footnote,
        two: first,
        three: last,
        four: 0,
    }
}

// `*`
pub fn attribute(
    text: &[u8],
    at: usize,
    n: u64,
    used: usize,
    footnotes: &[u64],
    places: &[u32],
) -> Words
    requires { at ≤ length text.now }
    ensures { 0 < result.width
        → Tested text.now at attribute_fields n true (Groups Footnote) used footnotes.now result.four result }
{
    if !quick_lines::looks(text, at, b"lcccc,nnn,nnn,nnnnn") {
        return untold();
    }
    let end = at + 19;
    let line = &text[at..end];
    if fields::all_blank(&line[1..5]) {
        return untold();
    }
    let code = text::code(&line[1..5]);
    let first = stop_word(&line[6..9], n);
    let last = stop_word(&line[10..13], n);
    let footnote = text::number(&line[14..19]);
    let Some(_) = key_places::found_by_place(
        File::Groups(GroupFile::Footnote),
        footnotes,
        used,
        places,
        footnote,
    ) else {
        return untold();
    };
    Words {
        width: 19,
        one: code,
        two: first,
        three: last,
        four: footnote,
    }
}

// `?`
pub fn platform(
    text: &[u8],
    at: usize,
    n: u64,
    used: usize,
    footnotes: &[u64],
    places: &[u32],
) -> Words
    requires { at ≤ length text.now }
    ensures { 0 < result.width
        → Tested text.now at platform_fields n true (Groups Footnote) used footnotes.now result.one result }
{
    if !quick_lines::looks(text, at, b"lttttt,ttttt,nnnnn") {
        return untold();
    }
    let end = at + 18;
    let line = &text[at..end];
    let footnote = text::number(&line[13..18]);
    let Some(_) = key_places::found_by_place(
        File::Groups(GroupFile::Footnote),
        footnotes,
        used,
        places,
        footnote,
    ) else {
        return untold();
    };
    Words {
        width: 18,
        one: footnote,
        two: 0,
        three: 0,
        four: 0,
    }
}
