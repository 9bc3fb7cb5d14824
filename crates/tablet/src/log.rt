// What a run tells of its plants, and what it comes to.
use files::complain::Complain;
use files::ended::Ended;
use files::save::LONGEST_PATH;
use roster::lines;
use std::io::Result;
use text::page::Page;
use text::{page, refusal};

#[derive(Drop)]
pub(crate) struct Log {
    // Whether standard error tells a failure.
    is_failed: bool,
    // Whether standard output tells a refusal.
    is_refused: bool,
    // Whether standard output takes what is told.
    is_heard: bool,
}

impl Log {
    pub(crate) fn new() -> Log {
        Log {
            is_failed: false,
            is_refused: false,
            is_heard: true,
        }
    }

    pub(crate) fn fail(&mut self) {
        self.is_failed = true;
    }

    // What the run comes to: a failure goes before a refusal.
    pub(crate) fn end(&self) -> Ended {
        if self.is_failed {
            return Ended::Failed;
        }
        if self.is_refused {
            return Ended::Refused;
        }
        Ended::Done
    }

    // Prints each line of the page behind the name of its plant. Once standard output takes no more, which
    // is told, the plants are served all the same, and nothing is printed.
    pub(crate) fn tell<R: Print + Complain>(&mut self, rt: &R, whose: &[u8], p: Page) {
        if !self.is_heard {
            return;
        }
        let bytes = p.bytes;
        let text = files::take_front(&bytes, p.len);
        if print_lines(rt, whose, text).is_err() {
            self.is_failed = true;
            self.is_heard = false;
            return;
        }
        self.is_refused |= refusal::is_told(text);
    }
}

// No line of a page is empty, and there are no more lines than bytes.
fn print_lines<R: Print + Complain>(rt: &R, whose: &[u8], text: &[u8]) -> Result<()> {
    for i in 0..text.len() {
        let line = lines::take_line(text, i);
        if line.is_empty() {
            break;
        }
        print_line(rt, whose, line)?;
    }
    Ok(())
}

// The longest name of a plant with a space behind it, and the longest line.
const LINE_ROOM: usize = LONGEST_PATH + 1 + page::SIZE;

fn print_line<R: Print + Complain>(rt: &R, whose: &[u8], line: &[u8]) -> Result<()> {
    let mut room = [0u8; LINE_ROOM];
    let n = files::put(&mut room, 0, whose);
    let n = files::put(&mut room, n, line);
    let n = files::put(&mut room, n, b"\n");
    files::print_bytes(
        rt,
        b"standard output (checkpoints are saved all the same)",
        &room[..n],
    )
}
