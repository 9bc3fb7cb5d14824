// The copy of a book beside its checkpoint: a checkpoint tells a book by its length and year alone,
// and the copy tells it byte for byte.
ghost use Rattle.std.specs.Prelude.{◌≡◌, ◌≢◌, length, IfOk, IfErr};
ghost use Rattle.io.specs.Counts.{IsPrefixLen};
ghost use Rattle.files.specs.declared.copy.Compared.TheVariants.{Same, Other};
ghost use Rattle.files.specs.declared.kept.Stopped.TheVariants.{Failed};
ghost use Rattle.files.specs.Look.{Told};

use crate::complain::{Complain, fail};
use crate::kept::Stopped;
use crate::save::LONGEST_PATH;
use crate::{path, real, save};
use std::io;
use std::io::Read;
use std::random::RandomSource;
use std::rt::Files;

// The most bytes of a checkpoint's path: the copy's name has 5 more, and what it is saved under 7 more.
pub const LONGEST_CHECKPOINT: usize = save::LONGEST_SAVED - 5;

// How the copy stands to a book.
#[derive(Clone, Copy)]
pub(crate) enum Compared {
    Same,
    // There is no copy.
    Missing,
    Other,
}

// Compares the copy beside the checkpoint at path with the book, whose own path is real. If it can't, standard
// error says why.
pub(crate) fn compare<R: Files + Alloc + Complain>(
    rt: &R,
    whose: &[u8],
    path: &[u8],
    book: &[u8],
    real: &[u8],
) -> Result<Compared, Stopped>
    ensures failed { IfErr result (λ e. e ≡ Failed) }
{
    let mut room = [0u8; LONGEST_PATH];
    let n = name_copy(path, &mut room);
    let copy = &room[..n];
    real::check_apart(rt, whose, copy, real)?;
    let Some(file) = path::open_if_there(rt, whose, copy)? else {
        return Ok(Compared::Missing);
    };
    let compared = compare_open(file, book).inspect_err(|why| fail(rt, whose, copy, *why))?;
    Ok(compared)
}

// Piece by piece, so that a copy needs no room of its own.
fn compare_open<F: Read + Drop>(file: F, book: &[u8]) -> io::Result<Compared>
    ensures told { IfOk result (Told (F.remaining file) book.now) }
{
    let mut file = file;
    let mut piece = [0u8; 4096];
    let mut n = 0;
    loop {
        let more = file.read(&mut piece)?;
        if more == 0 {
            return Ok(end_at(n, book));
        }
        if book.len() - n < more {
            return Ok(Compared::Other);
        }
        if &book[n..n + more] != crate::take_front(&piece, more) {
            return Ok(Compared::Other);
        }
        n += more;
    }
}

// A copy that ends after n bytes of the book, all of them the same.
fn end_at(n: usize, book: &[u8]) -> Compared
    ensures same { n ≡ length book.now → result ≡ Same }
    ensures other { n ≢ length book.now → result ≡ Other }
{
    if n == book.len() {
        return Compared::Same;
    }
    Compared::Other
}

// Saves the book as the copy beside the checkpoint at path.
pub(crate) fn keep<R: Files + RandomSource + Complain>(
    rt: &R,
    whose: &[u8],
    path: &[u8],
    book: &[u8],
) -> io::Result<()> {
    let mut room = [0u8; LONGEST_PATH];
    let n = name_copy(path, &mut room);
    save::save(rt, whose, &room[..n], book, b"")
}

// Puts path with `.book` behind it at the start of room, and answers its length.
fn name_copy(path: &[u8], room: &mut [u8]) -> usize
    ensures within { IsPrefixLen result room.new }
{
    let n = crate::put(room, 0, path);
    crate::put(room, n, b".book")
}
