// Document 01's Unique, of texts, which the tables do not keep: company code and name, country name, mode text.
#![tactic(auto)]

ghost use Rattle.std.specs.Prelude.{◌≡◌, ◌≤◌};
ghost use Rattle.iff.specs.Lines.{lines};
ghost use Rattle.iff.specs.declared.RowFile.TheVariants.{Company};
ghost use Rattle.iff_rules.specs.Unique.{fresh_texts};
ghost use Rattle.fresh_texts.specs.Texts.{as_line, same_columns, shares_text, has_texts};

use iff::RowFile;

// The same bytes in columns `from..to` of two lines, as far as each goes.
fn same_columns(a: &[u8], b: &[u8], from: usize, to: usize) -> bool
    requires { from ≤ to }
    ensures { result ≡ same_columns from to a.now b.now }
{
    text::same_bytes(text::columns_of(a, from, to), text::columns_of(b, from, to))
}

// Two companies share their code or their name.
fn same_company(a: &[u8], b: &[u8]) -> bool
    ensures { result ≡ shares_text Company a.now b.now }
{
    if same_columns(a, b, 4, 14) {
        return true;
    }
    same_columns(a, b, 15, 45)
}

// Two lines share a text that no two may: COMPANY's code or name, COUNTRY's name, TRNSMODE's text.
fn same_texts(file: RowFile, a: &[u8], b: &[u8]) -> bool
    ensures { result ≡ shares_text file a.now b.now }
{
    match file {
        RowFile::Company => same_company(a, b),
        RowFile::Country => same_columns(a, b, 7, 37),
        RowFile::Trnsmode => same_columns(a, b, 5, 35),
        RowFile::Stations => false,
    }
}

// No line of the text before shares a unique text with this one.
fn texts_differ(file: RowFile, before: &[u8], line: &[u8]) -> bool
    ensures { result ≡ fresh_texts file (lines before.now) (as_line line.now) }
{
    for earlier in text_lines::lines_of(before) {
        if same_texts(file, line, earlier.body) {
            return false;
        }
    }
    true
}

// STATIONS has no unique texts, so its lines are not gone through.
fn has_texts(file: RowFile) -> bool
    ensures { result ≡ has_texts file }
{
    match file {
        RowFile::Company => true,
        RowFile::Country => true,
        RowFile::Trnsmode => true,
        RowFile::Stations => false,
    }
}

// The line's unique texts are those of no line before.
pub fn fresh_texts(file: RowFile, before: &[u8], line: &[u8]) -> bool
    ensures { result ≡ fresh_texts file (lines before.now) (as_line line.now) }
{
    if has_texts(file) {
        return texts_differ(file, before, line);
    }
    true
}
