// One plant: its book and its place in it, what is told of it, and a turn.
use crate::log::Log;
use files::complain::Complain;
use files::kept::{Due, Stopped};
use files::save::LONGEST_PATH;
use files::{CHECKPOINT_ROOM, PATH_ROOM, kept};
use job::checkpoint;
use job::reply::Refusal;
use roster::plants;
use std::random::RandomSource;
use std::rt::Files;
use text::{progress, report};

// What a plant is asked: how many records it has left, or a turn of so many.
#[derive(Clone, Copy)]
pub(crate) enum Asked {
    Count,
    Turn(u32),
}

// How many records are left, 0 of a plant that can't be served. A plant is read from its files each time,
// for another program may have changed them. Its book goes into the room, which all plants have by turns.
pub(crate) fn ask<R: Files + Print + Alloc + RandomSource + Complain>(
    rt: &R,
    line: &[u8],
    asked: Asked,
    log: &mut Log,
    room: &mut [u8],
) -> u32 {
    let mut name = [0u8; LONGEST_PATH + 1];
    let n = files::put(&mut name, 0, plants::take_book(line));
    let n = files::put(&mut name, n, b" ");
    let whose = &name[..n];
    match ask_files(rt, line, whose, asked, log, room) {
        Ok(left) => left,
        Err(Stopped::Refused(x)) => {
            refuse(rt, line, whose, x, log);
            0
        }
        Err(Stopped::Failed) => {
            log.fail();
            0
        }
    }
}

fn ask_files<R: Files + Print + Alloc + RandomSource + Complain>(
    rt: &R,
    line: &[u8],
    whose: &[u8],
    asked: Asked,
    log: &mut Log,
    room: &mut [u8],
) -> Result<u32, Stopped> {
    let mut real = [0u8; PATH_ROOM];
    let n = files::read_book(rt, b"", plants::take_book(line), room, &mut real)?;
    let book = files::take_front(room, n);
    let path = plants::take_checkpoint(line);
    let due = kept::find_due(rt, book, &real, whose, path, false);
    let mut held = [0u8; CHECKPOINT_ROOM];
    let n = kept::find_place(rt, book, due, whose, path, &mut held)?;
    let from = files::take_front(&held, n);
    match asked {
        Asked::Count => count(rt, line, whose, book, from, due, log),
        Asked::Turn(budget) => wake(rt, line, whose, book, from, budget, due, log),
    }
}

// A book that is done is told at once: what it was told by before may have been killed. If its copy
// is due, that takes a wake that moves nothing.
fn count<R: Files + Print + RandomSource + Complain>(
    rt: &R,
    line: &[u8],
    whose: &[u8],
    book: &[u8],
    from: &[u8],
    due: Result<Due, Stopped>,
    log: &mut Log,
) -> Result<u32, Stopped> {
    let left = job::report::count_left(book, from)?;
    if left != 0 {
        return Ok(left);
    }
    if let Ok(Due::Nothing) = due {
        log.tell(rt, whose, progress::tell_turn(book, from, 0));
        return Ok(0);
    }
    wake(rt, line, whose, book, from, 0, due, log)
}

fn wake<R: Files + Print + RandomSource + Complain>(
    rt: &R,
    line: &[u8],
    whose: &[u8],
    book: &[u8],
    from: &[u8],
    budget: u32,
    due: Result<Due, Stopped>,
    log: &mut Log,
) -> Result<u32, Stopped> {
    let path = plants::take_checkpoint(line);
    kept::tell_change(rt, due, plants::take_book(line), path);
    let mut saved = [0u8; checkpoint::SIZE];
    let moved = kept::wake(rt, book, from, budget, due, whose, path, &mut saved)?;
    log.tell(rt, whose, progress::tell_turn(book, &saved, moved));
    Ok(count_saved(book, &saved))
}

// The records left by what a wake has saved, which no refusal can meet.
fn count_saved(book: &[u8], saved: &[u8]) -> u32 {
    job::report::count_left(book, saved).unwrap_or(0)
}

// Names a plant that is refused, which has no records to serve.
fn refuse<R: Print + Complain>(rt: &R, line: &[u8], whose: &[u8], x: Refusal, log: &mut Log) {
    log.tell(rt, whose, report::refuse(x));
    files::tell_page(rt, whose, plants::take_checkpoint(line), progress::hint(x));
}
