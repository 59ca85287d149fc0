// The lines of a text, one after another.

ghost use Rattle.std.specs.Prelude.{◌≡◌, ◌==◌, ◌≤◌, length, position};
ghost use Rattle.fields.specs.{Lines.lines_left, Split.lines, Split.line_feed};

use crate::split::{LINE_FEED, part_end};

fn line_end(text: &[u8]) -> Option<usize>
    ensures { result ≡ position (λ b. b == line_feed) text.now }
{
    let end = part_end(text, 0, LINE_FEED);
    (end < text.len()).then_some(end)
}

// Each line without its line feed. What stands behind the last line feed is no line.
#[derive(Drop)]
pub struct Lines<'a> {
    rest: &'a [u8],
}

impl<'a> Iterator for Lines<'a> {
    type Item = &'a [u8];

    ghost use Rattle.std.specs.Iterator.{YieldsFirstRef, item_count};
    ghost use Rattle.fields.specs.Lines.{lines_left};

    ghost next_gives = { YieldsFirstRef lines_left };

    ghost remaining = { item_count lines_left };

    fn next(&mut self) -> Option<&'a [u8]> {
        let end = line_end(self.rest)?;
        let line = &self.rest[..end];
        self.rest = &self.rest[end + 1..];
        Some(line)
    }
}

pub fn lines_of(text: &[u8]) -> Lines<'_>
    ensures value { lines_left result ≡ lines text.now }
    ensures few { length (lines_left result) ≤ length text.now }
{
    Lines { rest: text }
}
