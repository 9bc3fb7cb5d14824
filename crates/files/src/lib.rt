// What the programs share: reading an input to its end, writing bytes and pages, and a job that is
// kept in files.
//
// No contract can say what a call of the operating system read or wrote. Beside what it states, each
// function is proved to end if those calls return.
#![tactic(auto)]

pub mod arguments;
pub mod complain;
pub mod copy;
pub mod ended;
pub mod kept;
mod path;
mod real;
pub mod save;

ghost use Rattle.std.specs.Prelude.{◌≡◌};
ghost use Rattle.io.specs.Counts.{IsPrefixLen};
ghost use Rattle.files.specs.Got.{Within, TookAll};
ghost use Rattle.files.specs.Put.{front, put_end, put_bytes};
ghost use Rattle.files.specs.Ended.{Printed};

use complain::{Complain, fail, tell};
use ended::Ended;
use job::checkpoint;
use rules::book::LONGEST_BOOK;
use std::io::{Read, Result};
use std::rt::Files;
use text::page::Page;
use text::refusal;

// One byte more than the longest book, so that a longer one is seen and refused as such.
pub const BOOK_ROOM: usize = LONGEST_BOOK + 1;

// One byte more than a checkpoint, likewise.
pub const CHECKPOINT_ROOM: usize = checkpoint::SIZE + 1;

// The longest path with a zero behind it.
pub const PATH_ROOM: usize = save::LONGEST_PATH + 1;

// Reads until the input ends or buf is full, in as many pieces as the input comes in, and answers how many
// bytes stand at the start of buf: all there were, or as many as it holds. Its other bytes may have changed
// too, and all of them may if a read failed.
pub fn read_all<F: Read>(from: &mut F, buf: &mut [u8]) -> Result<usize>
    ensures within { Within result buf.new }
    ensures bytes { TookAll (F.remaining from.old) (F.remaining from.new) result buf.new }
{
    let mut n = 0;
    while n < buf.len() {
        let more = from.read(&mut buf[n..])?;
        if more == 0 {
            return Ok(n);
        }
        n += more;
    }
    Ok(n)
}

// Reads standard input as read_all does; if it can't, standard error says why.
pub fn read_input<R: Input + Complain>(rt: &R, buf: &mut [u8]) -> Result<usize>
    ensures within { Within result buf.new }
{
    read_all(&mut rt.reader(), buf).inspect_err(|why| fail(rt, b"", b"standard input", *why))
}

// One more read of standard input: no bytes are its end. A failure is told likewise.
pub fn read_on<R: Input + Complain>(rt: &R, buf: &mut [u8]) -> Result<usize>
    ensures within { Within result buf.new }
{
    let mut input = rt.reader();
    input
        .read(buf)
        .inspect_err(|why| fail(rt, b"", b"standard input", *why))
}

// Reads the file at path as read_all does; if it can't, standard error says why, behind `whose`.
pub fn read_file<R: Files + Complain>(
    rt: &R,
    whose: &[u8],
    path: &[u8],
    buf: &mut [u8],
) -> Result<usize>
    ensures within { Within result buf.new }
{
    let file = path::open_told(rt, whose, path)?;
    read_open(rt, file, whose, path, buf)
}

// Reads the file at path likewise: where there is none, no bytes.
pub fn read_if_there<R: Files + Complain>(
    rt: &R,
    whose: &[u8],
    path: &[u8],
    buf: &mut [u8],
) -> Result<usize>
    ensures within { Within result buf.new }
{
    let Some(file) = path::open_if_there(rt, whose, path)? else {
        return Ok(0);
    };
    read_open(rt, file, whose, path, buf)
}

// Reads the book at path likewise, and puts the path by which the system knows it at the start of real.
pub fn read_book<R: Files + Alloc + Complain>(
    rt: &R,
    whose: &[u8],
    path: &[u8],
    buf: &mut [u8],
    real: &mut [u8],
) -> Result<usize>
    ensures within { Within result buf.new }
{
    let file = path::open_told(rt, whose, path)?;
    real::find_path(rt, path, real);
    read_open(rt, file, whose, path, buf)
}

// Reads an open file and closes it.
pub fn read_open<R: Complain, F: Read + Drop>(
    rt: &R,
    file: F,
    whose: &[u8],
    path: &[u8],
    buf: &mut [u8],
) -> Result<usize>
    ensures within { Within result buf.new }
{
    let mut file = file;
    read_all(&mut file, buf).inspect_err(|why| fail(rt, whose, path, *why))
}

// The first n of the bytes, or all of them where there are fewer.
pub fn take_front(bytes: &[u8], n: usize) -> &[u8]
    ensures front { result.now ≡ front n bytes.now }
{
    if bytes.len() < n {
        return bytes;
    }
    &bytes[..n]
}

// Puts as much of src as fits behind the first n bytes of dst, and answers how many stand there now.
// That these are within dst follows; it is stated for callers that go on with `&dst[..r]`.
pub fn put(dst: &mut [u8], n: usize, src: &[u8]) -> usize
    ensures within { IsPrefixLen result dst.new }
    ensures end { result ≡ put_end n dst.old src.now }
    ensures bytes { dst.new ≡ put_bytes n dst.old src.now }
{
    let len = dst.len();
    if len < n {
        return len;
    }
    let fitting = take_front(src, len - n);
    let end = n + fitting.len();
    dst[n..end].copy_from_slice(fitting);
    end
}

// Writes the bytes to standard output; if it can't, standard error says why, and calls it by this name.
pub fn print_bytes<R: Print + Complain>(rt: &R, name: &[u8], bytes: &[u8]) -> Result<()> {
    rt.write_all(bytes)
        .inspect_err(|why| fail(rt, b"", name, *why))
}

// Prints what stands on the page likewise, and answers how that ends the program.
pub fn print_page<R: Print + Complain>(rt: &R, name: &[u8], p: Page) -> Ended
    ensures printed { Printed result (front p.len p.bytes) }
{
    let bytes = p.bytes;
    let text = take_front(&bytes, p.len);
    if print_bytes(rt, name, text).is_err() {
        return Ended::Failed;
    }
    if refusal::is_told(text) {
        return Ended::Refused;
    }
    Ended::Done
}

// Says what stands on the page on standard error, behind a path and the name of whoever it is told of,
// if anything does.
pub fn tell_page<R: Complain>(rt: &R, whose: &[u8], path: &[u8], p: Page) {
    if p.len == 0 {
        return;
    }
    let bytes = p.bytes;
    tell(rt, whose, path, take_front(&bytes, p.len));
}
