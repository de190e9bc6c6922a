// Lines of TIMETBLS told to be right where they stand. Every record there has a length of its own and no allowed byte is CR, so a look at its
// columns and at the two bytes behind them tells a line's end, its layout and its figures at once. What is told is right; of what is not told
// nothing is said, and the readers that name faults look at it.
#![tactic(auto)]

ghost use Rattle.std.specs.Prelude.{◌≡◌, true, ◌+◌, ◌<◌, ◌≤◌, length, get_or};
ghost use Rattle.iff.specs.Lists.{all2};
ghost use Rattle.iff.specs.Lines.{crlf};
ghost use Rattle.quick_lines.specs.Pictures.{right, Pictured};

// A byte is what its column's mark asks for. A vector's mark stands in no picture here.
fn is_right(b: u8, mark: u8) -> bool
    ensures { result ≡ right b mark }
{
    if mark == b',' {
        return b == b',';
    }
    if mark == b'n' {
        return text::is_digit(b);
    }
    if mark == b'm' {
        return false;
    }
    text::is_allowed(b)
}

fn are_right(columns: &[u8], picture: &[u8]) -> bool
    ensures { result ≡ all2 right columns.now picture.now }
{
    if columns.len() != picture.len() {
        return false;
    }
    columns
        .iter()
        .zip(picture)
        .all(|(b, mark)| is_right(*b, *mark))
}

// CR LF stands at `i`.
fn ends_at(text: &[u8], i: usize) -> bool
    requires { i + 1 < length text.now }
    ensures { result ≡ crlf (get_or text.now i 0) (get_or text.now (i + 1) 0) }
{
    if text[i] != b'\r' {
        return false;
    }
    text[i + 1] == b'\n'
}

// A line that looks like its picture stands at `at`, with CR LF behind it.
pub fn looks(text: &[u8], at: usize, picture: &[u8]) -> bool
    requires { at ≤ length text.now }
    ensures { result ≡ true → Pictured text.now at picture.now }
{
    let left = text.len() - at;
    if left < picture.len() {
        return false;
    }
    if left - picture.len() < 2 {
        return false;
    }
    let end = at + picture.len();
    if !ends_at(text, end) {
        return false;
    }
    are_right(&text[at..end], picture)
}
