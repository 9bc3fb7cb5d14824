// A text and its lines.
ghost use Rattle.std.specs.Prelude.{◌≡◌};
ghost use Rattle.std.specs.Iterator.{YieldsFirstRef, item_count};
ghost use Rattle.roster.specs.Lines.{lines_of, line_at, after, through};

use crate::bytes;

pub(crate) const NEWLINE: u8 = b'\n';

// The lines of a text, each without its newline; what stands unended after them is none.
#[derive(Drop)]
pub(crate) struct Lines<'a>(pub &'a [u8]);

impl<'a> Iterator for Lines<'a> {
    type Item = &'a [u8];

    ghost next_gives = { YieldsFirstRef (λ s. lines_of s.0.now) };

    ghost remaining = { item_count (λ s. lines_of s.0.now) };

    fn next(&mut self) -> Option<&'a [u8]> {
        let (line, rest) = bytes::split_once(self.0, NEWLINE)?;
        self.0 = rest;
        Some(line)
    }
}

// Line i without its newline, counted from 0: nothing, if there is no such line.
pub fn take_line(text: &[u8], i: usize) -> &[u8]
    ensures line { result.now ≡ line_at i text.now }
{
    Lines(text).nth(i).unwrap_or(&[])
}

// What stands after the first i lines: nothing, if there are fewer.
pub fn take_after(text: &[u8], i: usize) -> &[u8]
    ensures after { result.now ≡ after i text.now }
{
    let mut left = text;
    for _ in 0..i {
        // However great i is, there is no turn for lines that aren't there.
        let Some((_, next)) = bytes::split_once(left, NEWLINE) else {
            return &[];
        };
        left = next;
    }
    left
}

// The first i lines with their newlines: the whole text, if there are fewer.
pub fn take_through(text: &[u8], i: usize) -> &[u8]
    ensures through { result.now ≡ through i text.now }
{
    let n = text.len() - take_after(text, i).len();
    &text[..n]
}
