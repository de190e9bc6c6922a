// Where a TIMETBLS block ends: at the next line beginning `#`, or at the text's end. A right record has its length by its letter, so that one
// hops from line to line and looks at no byte but a line's first and its end; as many lines as hops tell that each hop was a line. Where that does
// not fit, the lines are looked at one by one.
#![tactic(auto)]

ghost use Rattle.std.specs.Prelude.{◌≡◌, ◌+◌, ◌≤◌, ◌<◌, length, drop};
ghost use Rattle.iff.specs.Lines.{lines};
ghost use Rattle.block_ends.specs.Blocks.{Clean, NextBlock};
ghost use Rattle.block_ends.specs.Hops.{Ending, Hopped};

// The next block begins at `next`, and so many lines and stops were hopped over: a guess, and whoever uses it counts again. 0 lines where nothing
// is said of them.
#[derive(Clone, Copy)]
pub struct BlockEnd {
    pub next: usize,
    pub lines: u64,
    pub stops: u64,
}

// LINE BY LINE

fn seek_head(text: &[u8], from: usize) -> usize
    requires { (from < length text.now) × Clean (lines (drop from text.now)) }
    ensures { NextBlock text.now from result }
{
    let head = text::line_at(text, from);
    let mut at = head.next;
    // A loop by hand: what is looked for is where a line begins, and a line alone does not tell that.
    while at < text.len() {
        let span = text::line_at(text, at);
        let end = span.end;
        if text::first_byte(&text[at..end]) == b'#' {
            return at;
        }
        at = span.next;
    }
    at
}

// BY HOPS

// The length of a record, CR LF counted.
fn length_by(letter: u8) -> usize
    ensures { (2 ≤ result) × (result < 60) }
{
    match letter {
        b'+' => 20,
        b';' => 10,
        b'?' => 20,
        b'#' => 11,
        b'%' => 59,
        b'-' => 16,
        b'*' => 21,
        _ => 15,
    }
}

// 1 for a stop.
fn stop_by(letter: u8) -> u64
    ensures { result ≤ 1 }
{
    if order::is_stop(letter as u64) { 1 } else { 0 }
}

// Behind the record at `at`, if CR LF ends it there, and else 0.
fn behind(text: &[u8], at: usize, letter: u8) -> usize
    requires { at ≤ length text.now }
    ensures { 0 < result → Ending text.now at result }
{
    let to = at + length_by(letter);
    if text.len() < to {
        return 0;
    }
    if text[to - 2] != b'\r' {
        return 0;
    }
    if text[to - 1] != b'\n' {
        return 0;
    }
    to
}

// Nothing is said.
fn lost() -> BlockEnd
    ensures { result.lines ≡ 0 }
{
    BlockEnd {
        next: 0,
        lines: 0,
        stops: 0,
    }
}

fn hop_over(text: &[u8], from: usize) -> BlockEnd
    requires { from < length text.now }
    ensures { 0 < result.lines → Hopped text.now from result.next result.lines }
{
    let mut at = behind(text, from, text[from]);
    if at == 0 {
        return lost();
    }
    let mut lines: u64 = 1;
    let mut stops: u64 = 0;
    // A loop by hand: how far a hop goes is known only from the letter that stands there, so no range says it.
    while at < text.len() {
        let letter = text[at];
        if letter == b'#' {
            return BlockEnd {
                next: at,
                lines: lines,
                stops: stops,
            };
        }
        let next = behind(text, at, letter);
        if next == 0 {
            return lost();
        }
        lines += 1;
        stops += stop_by(letter);
        at = next;
    }
    BlockEnd {
        next: at,
        lines: lines,
        stops: stops,
    }
}

// THE END

// Of the block that begins at `from`.
pub fn next_head(text: &[u8], from: usize) -> BlockEnd
    requires { (from < length text.now) × Clean (lines (drop from text.now)) }
    ensures { NextBlock text.now from result.next }
{
    let hopped = hop_over(text, from);
    let to = hopped.next;
    if hopped.lines != 0 {
        if line_counts::count_lines(&text[from..to]) as u64 == hopped.lines {
            return hopped;
        }
    }
    BlockEnd {
        next: seek_head(text, from),
        lines: 0,
        stops: 0,
    }
}
