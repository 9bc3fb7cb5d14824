// A page: room for what a program writes at once.
ghost use Rattle.std.specs.Prelude.{◌≡◌};
ghost use Rattle.text.specs.Extended as spec;

// The most bytes that a page holds.
pub const SIZE: usize = 512;

#[derive(Drop)]
pub struct Page {
    // What is written stands in the first `len` bytes; the rest is 0.
    pub bytes: [u8; SIZE],
    pub len: usize,
}

pub(crate) fn take_blank() -> Page
    ensures blank { result ≡ spec.blank }
{
    Page {
        bytes: [0u8; SIZE],
        len: 0,
    }
}

pub(crate) fn say_byte(p: Page, b: u8) -> Page
    ensures said { result ≡ spec.with_byte p b }
{
    let at = p.len;
    if at < SIZE {
        let mut next = p;
        next.bytes[at] = b;
        next.len = at + 1;
        return next;
    }
    p
}

pub(crate) fn say(p: Page, word: &[u8]) -> Page
    ensures said { result ≡ spec.extended p word.now }
{
    let mut next = p;
    for b in word {
        next = say_byte(next, *b);
    }
    next
}
