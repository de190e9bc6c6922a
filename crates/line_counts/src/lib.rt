// The lines of a text, counted by their ends: in runs so short that a byte counts what one of them has, which the compiler does for many bytes at
// once.
#![tactic(auto)]

ghost use Rattle.std.specs.Prelude.{◌≡◌, ◌+◌, ◌≤◌, ◌<◌, length, drop, get_or};
ghost use Rattle.iff.specs.Lines.{lines, crlf};
ghost use Rattle.line_counts.specs.Ends.{one, ends, unended};

// 1 for CR LF.
fn end_of(b: u8, c: u8) -> u8
    ensures { (result ≡ one (crlf b c)) × (result ≤ 1) }
{
    u8::from(b == b'\r' && c == b'\n')
}

// How often CR LF begins from `from` on and before `to`.
fn ends_in(text: &[u8], from: usize, to: usize) -> u8
    requires { (from ≤ to) × (to < length text.now) × (to ≤ from + 240) }
    ensures { (result + ends (drop to text.now) ≡ ends (drop from text.now)) × (result ≤ 240) }
{
    let mut n: u8 = 0;
    for i in from..to {
        n += end_of(text[i], text[i + 1]);
    }
    n
}

// 1 for a remainder without CR LF, which counts as a line.
fn remainder_of(text: &[u8], last: usize) -> usize
    requires { last + 1 ≡ length text.now }
    ensures { (result ≡ unended text.now) × (result ≤ 1) }
{
    if last == 0 {
        return 1;
    }
    if text[last] != b'\n' {
        return 1;
    }
    if text[last - 1] != b'\r' {
        return 1;
    }
    0
}

// A remainder without CR LF counts as a line.
pub fn count_lines(text: &[u8]) -> usize
    ensures { result ≡ length (lines text.now) }
{
    if text.len() == 0 {
        return 0;
    }
    let last = text.len() - 1;
    // Runs of one length, which the compiler unrolls, and then what is left.
    let runs = last / 240;
    let mut n: usize = 0;
    for run in 0..runs {
        let i = run * 240;
        n += ends_in(text, i, i + 240) as usize;
    }
    n += ends_in(text, runs * 240, last) as usize;
    n + remainder_of(text, last)
}
