// Text put together in a lent buffer: bytes, and numbers in decimal. What has no room is cut off.
#![tactic(auto)]

ghost use Rattle.std.specs.Prelude.{◌≡◌, [], ◌∷◌};
ghost use Rattle.text_puts.specs.Texts.{Appended, last_digit, digits};

// TEXT

#[tactic(auto, using(crate::proofs::TextLaws::byte_put, crate::proofs::TextLaws::no_room))]
pub fn put_byte(out: &mut [u8], at: usize, b: u8) -> usize
    ensures { Appended out.old at (b ∷ []) out.new result }
{
    if at < out.len() {
        out[at] = b;
        return at + 1;
    }
    at
}

pub fn put_bytes(out: &mut [u8], at: usize, text: &[u8]) -> usize
    ensures { Appended out.old at text.now out.new result }
{
    let mut to = at;
    for b in text {
        to = put_byte(out, to, *b);
    }
    to
}

// NUMBERS

fn last_digit(n: u64) -> u8
    ensures { result ≡ last_digit n }
{
    48 + (n % 10) as u8
}

// The digits before the last are those of a tenth, at most `depth` of them.
#[tactic(auto, using(crate::proofs::TextLaws::only_digit, crate::proofs::TextLaws::small_number, crate::proofs::TextLaws::more_digits))]
pub fn put_digits(out: &mut [u8], at: usize, n: u64, depth: usize) -> usize
    ensures { Appended out.old at (digits depth n) out.new result }
{
    let last = last_digit(n);
    if depth == 0 {
        return put_byte(out, at, last);
    }
    if n < 10 {
        return put_byte(out, at, last);
    }
    let to = put_digits(out, at, n / 10, depth - 1);
    put_byte(out, to, last)
}
