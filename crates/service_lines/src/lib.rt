// A service's lines now, a part of the lent TIMETBLS or of an amendment's block.
#![tactic(auto)]

ghost use Rattle.std.specs.Prelude.{◌≡◌, ◌≤◌, length, drop};
ghost use Rattle.iff.specs.Lists.{all};
ghost use Rattle.iff.specs.Lines.{lines};
ghost use Rattle.iff_desk.specs.Parts.{is_one_block, lines_now, lines_now_test};
ghost use Rattle.parts.specs.Bounds.{Inside};
ghost use Rattle.service_lines.specs.Bounds.{follows, lines_part};

use iff::{Reason, Test};
use parts::{Part, Want, is_head, no_part, seek, seek_after};

// Every line from `from` on is ended, and none begins `#` or `@`.
fn all_follow(block: &[u8], from: usize) -> bool
    requires { from ≤ length block.now }
    ensures { result ≡ all follows (lines (drop from block.now)) }
{
    for line in text_lines::lines_from(block, from) {
        if !line.ended {
            return false;
        }
        let letter = text::first_byte(line.body);
        if letter == b'#' {
            return false;
        }
        if letter == b'@' {
            return false;
        }
    }
    true
}

// 11's test: the block is one whole block of the service.
pub fn is_one_block(block: &[u8], service: u64) -> bool
    ensures { result ≡ is_one_block service (lines block.now) }
{
    if block.len() == 0 {
        return false;
    }
    let line = text::line_at(block, 0);
    if !line.ended {
        return false;
    }
    let end = line.end;
    if !is_head(&block[0..end], service) {
        return false;
    }
    all_follow(block, line.next)
}

// Where the service's lines stand in the text, from its first `#` line to the next line beginning `#` or the end; else 12.
pub fn lines_part(text: &[u8], service: u64) -> Part
    ensures { (result ≡ lines_part text.now service) × Inside text.now result }
{
    match seek(text, 0, Want::Head(service)) {
        Some(i) => match seek_after(text, i, Want::Hash) {
            Some(j) => Part {
                test: Ok(()),
                from: i,
                to: j,
            },
            None => Part {
                test: Ok(()),
                from: i,
                to: text.len(),
            },
        },
        None => no_part(Reason::NoService),
    }
}

// The block where it passes 11's test for that service, else the service's lines in the text: a part of one of the two, or an empty one.
pub fn lines_now<'a>(text: &'a [u8], block: &'a [u8], service: u64) -> &'a [u8]
    ensures { result.now ≡ lines_now text.now block.now service }
{
    if is_one_block(block, service) {
        return block;
    }
    let part = lines_part(text, service);
    let from = part.from;
    let to = part.to;
    &text[from..to]
}

// Whether there are any, or 12.
pub fn lines_now_test(text: &[u8], block: &[u8], service: u64) -> Test
    ensures { result ≡ lines_now_test text.now block.now service }
{
    if is_one_block(block, service) {
        return Ok(());
    }
    let part = lines_part(text, service);
    part.test
}
