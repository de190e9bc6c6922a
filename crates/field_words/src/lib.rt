// A word fits a field by the field's class and width: a number, a company's number or the wildcard, a code.
#![tactic(auto)]

ghost use Rattle.std.specs.Prelude.{◌≡◌, ◌||◌, ◌^◌, eqb, ltb};
ghost use Rattle.iff.specs.Values.{code_of, wildcard};
ghost use Rattle.field_words.specs.Fits.{Digits, word_fits};

// What a number of so many digits is below. A `match`, since the compiler makes a table of it.
fn ten_to(width: usize) -> u64
    requires { Digits width }
    ensures { result ≡ 10 ^ width }
{
    match width {
        0 => 1,
        1 => 10,
        2 => 100,
        3 => 1000,
        4 => 10000,
        5 => 100000,
        6 => 1000000,
        7 => 10000000,
        _ => 100000000,
    }
}

// `*` followed by blanks, at any width of a field.
const WILDCARD: [u8; 8] = *b"*       ";

// The wildcard's own code.
fn any_code(width: usize) -> u64
    requires { Digits width }
    ensures { result ≡ code_of (wildcard width) }
{
    text::code(&WILDCARD[..width])
}

// A company's number or the wildcard.
fn is_number_or_any(word: u64, width: usize) -> bool
    requires { Digits width }
    ensures { result ≡ (ltb word (10 ^ width) || eqb word (code_of (wildcard width))) }
{
    if word < ten_to(width) {
        return true;
    }
    word == any_code(width)
}

// A word fits a field of a class and width. A stop's number has been made another number, and is for the legs to judge.
pub fn fits_class(class: u8, width: usize, word: u64) -> bool
    requires { Digits width }
    ensures { result ≡ word_fits class width word }
{
    match class {
        b'n' => word < ten_to(width),
        b's' => true,
        b'a' => is_number_or_any(word, width),
        _ => codes::is_code(word, width),
    }
}
