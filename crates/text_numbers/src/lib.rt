// Numbers of the texts that no two lines may share. The same text has the same number, so that a text whose number is not marked has not come.
#![tactic(auto)]

ghost use Rattle.std.specs.Prelude.{◌≡◌, true, false, List, ◌++◌, ℕ, ◌≤◌, length};
ghost use Rattle.iff.specs.declared.RowFile.TheVariants.{Company};
ghost use Rattle.marks.specs.Marks.{slots, Marked};
ghost use Rattle.text_numbers.specs.Numbers.{next_number, text_number, columns_number, text_numbers, some_in};

use iff::RowFile;

// With one byte more. What is kept of the number so far leaves room for the product.
fn next_number(number: u64, byte: u8) -> u64
    ensures { result ≡ next_number number byte }
{
    number % 4294967296 * 2654435761 + byte as u64
}

// A text's number.
fn text_number(text: &[u8]) -> u64
    ensures { result ≡ text_number 0 text.now }
{
    text.iter()
        .fold(0, |number, byte| next_number(number, *byte))
}

// That of columns `from..to` of a line, as far as it goes.
fn columns_number(line: &[u8], from: usize, to: usize) -> u64
    requires { from ≤ to }
    ensures { result ≡ columns_number from to line.now }
{
    text_number(text::columns_of(line, from, to))
}

// Neither the code nor the name of a company is marked.
fn is_company_unmarked(marks: &[u8], line: &[u8]) -> bool
    requires { length marks.now ≡ slots }
    ensures { (numbers : List ℕ) → Marked marks.now numbers → result ≡ true
        → some_in numbers (text_numbers Company line.now) ≡ false }
{
    if !marks::is_unmarked(marks, columns_number(line, 4, 14)) {
        return false;
    }
    marks::is_unmarked(marks, columns_number(line, 15, 45))
}

// No unique text of a line is marked: they are those of no line that was marked. STATIONS has none.
pub fn are_texts_unmarked(file: RowFile, marks: &[u8], line: &[u8]) -> bool
    requires { length marks.now ≡ slots }
    ensures { (numbers : List ℕ) → Marked marks.now numbers → result ≡ true
        → some_in numbers (text_numbers file line.now) ≡ false }
{
    match file {
        RowFile::Company => is_company_unmarked(marks, line),
        RowFile::Country => marks::is_unmarked(marks, columns_number(line, 7, 37)),
        RowFile::Trnsmode => marks::is_unmarked(marks, columns_number(line, 5, 35)),
        RowFile::Stations => true,
    }
}

// Marks a company's code and name.
fn mark_company(marks: &mut [u8], line: &[u8])
    requires { length marks.old ≡ slots }
    ensures { (numbers : List ℕ) → Marked marks.old numbers
        → Marked marks.new (numbers ++ text_numbers Company line.now) }
{
    let code = columns_number(line, 4, 14);
    marks::mark(marks, code);
    let name = columns_number(line, 15, 45);
    marks::mark(marks, name);
}

// Marks a line's unique texts.
pub fn mark_texts(file: RowFile, marks: &mut [u8], line: &[u8])
    requires { length marks.old ≡ slots }
    ensures { (numbers : List ℕ) → Marked marks.old numbers
        → Marked marks.new (numbers ++ text_numbers file line.now) }
{
    match file {
        RowFile::Company => mark_company(marks, line),
        RowFile::Country => marks::mark(marks, columns_number(line, 7, 37)),
        RowFile::Trnsmode => marks::mark(marks, columns_number(line, 5, 35)),
        RowFile::Stations => {}
    }
}
