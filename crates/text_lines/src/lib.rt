// The lines of a text, one after the other.
#![tactic(auto)]

ghost use Rattle.std.specs.Prelude.{◌≡◌, drop};
ghost use Rattle.std.specs.Iterator.{YieldsFirstBy, item_count};
ghost use Rattle.iff.specs.Lines.{lines};
ghost use Rattle.text_lines.specs.Left.{seen, lines_left};

// A line: its bytes, and whether CR LF ends it or nothing does.
#[derive(Clone, Copy)]
pub struct Line<'a> {
    pub body: &'a [u8],
    pub ended: bool,
}

// The lines of a text from some byte on.
#[derive(Clone, Copy)]
pub struct Lines<'a> {
    text: &'a [u8],
    at: usize,
}

impl<'a> Iterator for Lines<'a> {
    type Item = Line<'a>;

    ghost next_gives = { YieldsFirstBy seen lines_left };

    ghost remaining = { item_count lines_left };

    fn next(&mut self) -> Option<Line<'a>> {
        if self.text.len() <= self.at {
            return None;
        }
        let span = text::line_at(self.text, self.at);
        let body = &self.text[self.at..span.end];
        self.at = span.next;
        Some(Line {
            body: body,
            ended: span.ended,
        })
    }
}

// The lines from byte `from` on; none beyond the end.
pub fn lines_from(text: &[u8], from: usize) -> Lines<'_>
    ensures { lines_left result ≡ lines (drop from text.now) }
{
    Lines {
        text: text,
        at: from,
    }
}

// All lines.
pub fn lines_of(text: &[u8]) -> Lines<'_>
    ensures { lines_left result ≡ lines text.now }
{
    lines_from(text, 0)
}
