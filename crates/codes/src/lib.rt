// A code's word: its bytes are allowed and not all blank.
#![tactic(auto)]

ghost use Rattle.std.specs.Prelude.{◌≡◌, ◌&&◌, eqb};
ghost use Rattle.iff.specs.Bytes.{blank as blank_byte};
ghost use Rattle.iff.specs.Values.{code_right};

// All bytes so far are blank, and so is this one.
fn still_blank(blank: bool, byte: u8) -> bool
    ensures { result ≡ (blank && eqb blank_byte byte) }
{
    blank && byte == b' '
}

// A code's bytes are allowed and not all blank. The last stands lowest and is read first; what is left after as many as there are columns is none.
pub fn is_code(word: u64, width: usize) -> bool
    ensures { result ≡ code_right width word }
{
    let mut left = word;
    let mut blank = true;
    for _ in 0..width {
        let byte = (left % 256) as u8;
        if !text::is_allowed(byte) {
            return false;
        }
        blank = still_blank(blank, byte);
        left = left / 256;
    }
    if left != 0 {
        return false;
    }
    !blank
}
