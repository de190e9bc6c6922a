// An answer of a sheet in words: those of a change's answer, and the gap, which has a sign.
#![tactic(auto)]

ghost use Rattle.std.specs.Prelude.{◌≡◌};
ghost use Rattle.sheet_answers.specs.Words.{signed_word, sheet_words};

use iff_desk::Change;

// How many words an answer has.
pub const ANSWER_WIDTH: usize = 8;

// The word of -1.
const MINUS_ONE: u64 = 18446744073709551615;

// A gap as a word, its two's complement: callers read it as a signed number of 64 bits.
fn gap_word(gap: i32) -> u64
    ensures { result ≡ signed_word gap }
{
    if gap < 0 {
        return MINUS_ONE - (-1 - gap) as u64;
    }
    gap as u64
}

// Eight words: those of the change, and the gap; 0 where none was reached.
pub fn answer_words(answer: Result<Change, iff::Reason>) -> [u64; 8]
    ensures { result ≡ sheet_words answer }
{
    let words = change_numbers::change_words(answer);
    let gap = change_numbers::change_gap(answer);
    let minutes = gap[0];
    [
        words[0],
        words[1],
        words[2],
        words[3],
        words[4],
        words[5],
        words[6],
        gap_word(minutes),
    ]
}
