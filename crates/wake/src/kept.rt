// One wake of a job that is kept in files: its book read, a wake from its place, then what to print.
use files::complain::Complain;
use files::ended::Ended;
use files::kept::{Due, Stopped};
use files::{PATH_ROOM, kept};
use job::checkpoint;
use job::reply::Refusal;
use std::random::RandomSource;
use std::rt::Files;
use text::{progress, report};

pub(crate) fn run<R: Files + Print + Alloc + RandomSource + Complain>(
    rt: &R,
    book_path: &[u8],
    path: &[u8],
    budget: u32,
    anew: bool,
) -> Ended {
    let mut room = [0u8; files::BOOK_ROOM];
    run_in(rt, &mut room, book_path, path, budget, anew)
}

fn run_in<R: Files + Print + Alloc + RandomSource + Complain>(
    rt: &R,
    room: &mut [u8],
    book_path: &[u8],
    path: &[u8],
    budget: u32,
    anew: bool,
) -> Ended {
    match wake(rt, room, book_path, path, budget, anew) {
        Ok(ended) => ended,
        Err(Stopped::Refused(x)) => refuse(rt, x, path),
        Err(Stopped::Failed) => Ended::Failed,
    }
}

fn wake<R: Files + Print + Alloc + RandomSource + Complain>(
    rt: &R,
    room: &mut [u8],
    book_path: &[u8],
    path: &[u8],
    budget: u32,
    anew: bool,
) -> Result<Ended, Stopped> {
    let mut real = [0u8; PATH_ROOM];
    let n = files::read_book(rt, b"", book_path, room, &mut real)?;
    let book = files::take_front(room, n);
    let due = kept::find_due(rt, book, &real, b"", path, anew);
    let mut held = [0u8; files::CHECKPOINT_ROOM];
    let n = kept::find_place(rt, book, due, b"", path, &mut held)?;
    if !anew {
        kept::tell_change(rt, due, book_path, path);
    }
    wake_from(rt, book, files::take_front(&held, n), due, path, budget)
}

fn wake_from<R: Files + Print + RandomSource + Complain>(
    rt: &R,
    book: &[u8],
    from: &[u8],
    due: Result<Due, Stopped>,
    path: &[u8],
    budget: u32,
) -> Result<Ended, Stopped> {
    let mut saved = [0u8; checkpoint::SIZE];
    let moved = kept::wake(rt, book, from, budget, due, b"", path, &mut saved)?;
    Ok(files::print_page(
        rt,
        b"standard output (the checkpoint is saved)",
        progress::tell_progress(book, &saved, moved),
    ))
}

fn refuse<R: Print + Complain>(rt: &R, x: Refusal, path: &[u8]) -> Ended {
    let ended = files::print_page(rt, b"standard output", report::refuse(x));
    files::tell_page(rt, b"", path, progress::hint(x));
    ended
}
