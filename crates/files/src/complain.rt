// What is said on standard error.
ghost use Rattle.io.specs.Counts.{IsPrefixLen};

use std::fmt;
use std::fmt::Write;
use std::io::{Error, Print};
use std::rt::LibcRuntime;

// Standard error, for bytes that needn't be text, as a path's.
pub trait Complain {
    // What it doesn't take is lost.
    fn complain(&self, bytes: &[u8]);
}

impl Complain for LibcRuntime {
    fn complain(&self, bytes: &[u8]) {
        let _ = self.stderr().write_all(bytes);
    }
}

// Says what failed at a path, and why, behind the name of whoever it is told of.
pub(crate) fn fail<R: Complain>(rt: &R, whose: &[u8], path: &[u8], why: Error) {
    tell(rt, whose, path, b": ");
    let mut words = Words {
        bytes: [0u8; MOST],
        len: 0,
    };
    let _ = write!(words, "{why}");
    rt.complain(&words.bytes[..find_number(&words.bytes, words.len)]);
    rt.complain(b"\n");
}

// Says what is to be said of a path, likewise.
pub(crate) fn tell<R: Complain>(rt: &R, whose: &[u8], path: &[u8], words: &[u8]) {
    rt.complain(whose);
    rt.complain(path);
    rt.complain(words);
}

const MOST: usize = 320;

// As many of an error's words as there is room for.
#[derive(Drop)]
struct Words {
    bytes: [u8; MOST],
    len: usize,
}

impl Write for Words {
    fn write_str(&mut self, s: &str) -> fmt::Result {
        self.len = crate::put(&mut self.bytes, self.len, s.as_bytes());
        Ok(())
    }
}

// Where std puts the system's number behind its words: at their end, if it puts none.
fn find_number(words: &[u8], n: usize) -> usize
    ensures within { IsPrefixLen result words.now }
{
    let words = crate::take_front(words, n);
    for i in 0..words.len() {
        if words[i..].starts_with(b" (os error ") {
            return i;
        }
    }
    words.len()
}
