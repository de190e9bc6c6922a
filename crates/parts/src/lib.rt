// Parts of lent texts, by their bounds, and where a line stands that is looked for.
#![tactic(auto)]

ghost use Rattle.std.specs.Prelude.{◌≡◌, Bool, ◌≤◌, length, drop};
ghost use Rattle.iff.specs.Lines.{lines};
ghost use Rattle.iff_desk.specs.Parts.{seek as seek_from, seek_after, is_station, is_head};
ghost use Rattle.parts.specs.Wants.{bodied, wants, Sought};
ghost use Rattle.parts.specs.Bounds.{no_part};

use iff::{Reason, Test};

// The line that is looked for: a station's row, a service's first line, or any line beginning `#`.
#[derive(Clone, Copy)]
pub enum Want {
    Station(u64),
    Head(u64),
    Hash,
}

// A part of a text by its bounds, from a byte on and before another; or the refusal, with an empty part from 0 to 0.
#[derive(Clone, Copy)]
pub struct Part {
    pub test: Test,
    pub from: usize,
    pub to: usize,
}

pub fn no_part(reason: Reason) -> Part
    ensures { result ≡ no_part reason }
{
    let test = Err(reason);
    Part {
        test: test,
        from: 0,
        to: 0,
    }
}

// A row of 73 bytes with this short name, columns 3-9.
fn is_station(line: &[u8], short: u64) -> bool
    ensures { (e : Bool) → result ≡ is_station short (bodied line.now e) }
{
    if line.len() != 73 {
        return false;
    }
    text::code(&line[2..9]) == short
}

// `#` and the service's eight digits alone.
pub fn is_head(line: &[u8], service: u64) -> bool
    ensures { (e : Bool) → result ≡ is_head service (bodied line.now e) }
{
    if line.len() != 9 {
        return false;
    }
    if line[0] != b'#' {
        return false;
    }
    if !text::all_digits(&line[1..9]) {
        return false;
    }
    text::number(&line[1..9]) == service
}

fn is_wanted(line: &[u8], want: Want) -> bool
    ensures { (e : Bool) → result ≡ wants want (bodied line.now e) }
{
    match want {
        Want::Station(short) => is_station(line, short),
        Want::Head(service) => is_head(line, service),
        Want::Hash => text::first_byte(line) == b'#',
    }
}

// Where the first line begins that is wanted, of those from `from` on.
pub fn seek(text: &[u8], from: usize, want: Want) -> Option<usize>
    requires { from ≤ length text.now }
    ensures { Sought (seek_from (wants want) from (lines (drop from text.now))) want from (length text.now) result }
{
    let mut at = from;
    // A loop by hand: where the next line begins is known only once this one is read, so no range says it.
    while at < text.len() {
        let line = text::line_at(text, at);
        let end = line.end;
        if is_wanted(&text[at..end], want) {
            return Some(at);
        }
        at = line.next;
    }
    None
}

// The same after the line at `from`.
pub fn seek_after(text: &[u8], from: usize, want: Want) -> Option<usize>
    requires { from ≤ length text.now }
    ensures { Sought (seek_after (wants want) from (lines (drop from text.now))) want from (length text.now) result }
{
    if text.len() <= from {
        return None;
    }
    let line = text::line_at(text, from);
    seek(text, line.next, want)
}
