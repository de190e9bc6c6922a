// The words that a record of a TIMETBLS block leaves where it is told to be right, and what is told of it: one law for each record.
#![tactic(auto)]

ghost use Rattle.std.specs.Prelude.{◌≡◌, ◌≤◌, length};
ghost use Rattle.iff.specs.Values.{stop_of, number_of};

// The words of a record's row between its tag and its line's number, the last of which is 0 in every record; and how many columns the record has,
// 0 where it is not told to be right.
#[derive(Clone, Copy)]
pub struct Words {
    pub width: usize,
    pub one: u64,
    pub two: u64,
    pub three: u64,
    pub four: u64,
}

pub fn untold() -> Words
    ensures { result.width ≡ 0 }
{
    Words {
        width: 0,
        one: 0,
        two: 0,
        three: 0,
        four: 0,
    }
}

// Stop 000 is the first, and 999 the last of n.
pub fn stop_word(field: &[u8], n: u64) -> u64
    requires { length field.now ≤ 8 }
    ensures { result ≡ stop_of n (number_of field.now) }
{
    let k = text::number(field);
    if k == 0 {
        return 1;
    }
    if k == 999 {
        return n;
    }
    k
}
