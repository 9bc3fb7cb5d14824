// Numbers on a page, in decimal and little-endian.
ghost use Rattle.std.specs.Prelude.{◌++◌, ◌≡◌};
ghost use Rattle.rules.specs.Bytes.{bytes_of};
ghost use Rattle.text.specs.Extended.{extended};
ghost use Rattle.text.specs.Words as words;

use crate::page;
use crate::page::Page;

pub(crate) fn say_decimal(p: Page, n: u64) -> Page
    ensures said { result ≡ extended p (words.decimal n) }
{
    if n < 10 {
        return page::say_byte(p, b'0' + n as u8);
    }
    let front = say_decimal(p, n / 10);
    page::say_byte(front, b'0' + (n % 10) as u8)
}

pub(crate) fn say_field(p: Page, word: &[u8], n: u64) -> Page
    ensures said { result ≡ extended p (words.field word.now n) }
{
    let named = page::say(p, word);
    say_decimal(named, n)
}

pub(crate) fn say_line(p: Page, word: &[u8], n: u64) -> Page
    ensures said { result ≡ extended p (words.line word.now n) }
{
    let said = say_field(p, word, n);
    page::say(said, b"\n")
}

// The lowest n bytes of v.
pub(crate) fn say_bytes(p: Page, n: usize, v: u64) -> Page
    ensures said { result ≡ extended p (bytes_of n v) }
{
    let mut next = p;
    let mut rest = v;
    for _ in 0..n {
        next = page::say_byte(next, (rest % 256) as u8);
        rest /= 256;
    }
    next
}
