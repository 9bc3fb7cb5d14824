// The round: plants stand in the queue's slots in the order of their lines, and take turns. Which plant
// is served is kept beside LIST before it is, so that a run that is killed costs that plant one round
// at most, and the next goes on behind it.
use crate::log::Log;
use crate::plant::Asked;
use crate::{LIST_ROOM, plant};
use files::complain::Complain;
use files::ended::Ended;
use files::save::LONGEST_SAVED;
use files::{BOOK_ROOM, save};
use queue::slots::{Queue, SLOT_COUNT};
use roster::{lines, place};
use rules::book::LONGEST_BOOK;
use std::io::Result;
use std::random::RandomSource;
use std::rt::Files;

// As many books as there are slots, of as many records as stand beside a trailer, each turn one record
// at least. Only while another program takes the books back could there be more, and the next run goes
// on with those.
const MOST_TURNS: u32 = (SLOT_COUNT * (LONGEST_BOOK / 32 - 1)) as u32;

pub(crate) fn run<R: Files + Print + Alloc + RandomSource + Complain>(
    rt: &R,
    list: &[u8],
    n: usize,
    path: &[u8],
    budget: u32,
) -> Ended {
    let mut room = [0u8; BOOK_ROOM];
    run_in(rt, list, n, path, budget, &mut room)
}

// The plants have the room for a book by turns.
fn run_in<R: Files + Print + Alloc + RandomSource + Complain>(
    rt: &R,
    list: &[u8],
    n: usize,
    path: &[u8],
    budget: u32,
    room: &mut [u8],
) -> Ended {
    let mut name = [0u8; LONGEST_SAVED];
    let end = files::put(&mut name, 0, path);
    let end = files::put(&mut name, end, b".place");
    go_on(rt, list, n, &name[..end], budget, room)
}

// Goes on behind the plant that was served last. A place that can't be read is no reason to begin
// with the first plant again.
fn go_on<R: Files + Print + Alloc + RandomSource + Complain>(
    rt: &R,
    list: &[u8],
    n: usize,
    path: &[u8],
    budget: u32,
    room: &mut [u8],
) -> Ended {
    let mut kept = [0u8; LIST_ROOM];
    let Ok(k) = files::read_if_there(rt, b"", path, &mut kept) else {
        return Ended::Failed;
    };
    let mut log = Log::new();
    let mut queue = fill(rt, list, n, &mut log, room);
    queue.last = (place::find(list, files::take_front(&kept, k)) % SLOT_COUNT) as u8;
    take_turns(rt, list, queue, &mut log, path, budget, room);
    log.end()
}

fn fill<R: Files + Print + Alloc + RandomSource + Complain>(
    rt: &R,
    list: &[u8],
    n: usize,
    log: &mut Log,
    room: &mut [u8],
) -> Queue {
    let mut queue = Queue::new();
    for i in 0..n {
        let left = plant::ask(rt, lines::take_line(list, i), Asked::Count, log, room);
        // There are no more plants in a list than slots.
        let _ = queue.add(left);
    }
    queue
}

fn take_turns<R: Files + Print + Alloc + RandomSource + Complain>(
    rt: &R,
    list: &[u8],
    mut queue: Queue,
    log: &mut Log,
    path: &[u8],
    budget: u32,
    room: &mut [u8],
) {
    for _ in 0..MOST_TURNS {
        let Ok(served) = queue.turn(budget) else {
            return;
        };
        if keep(rt, list, queue.last, path).is_err() {
            log.fail();
            return;
        }
        serve(rt, list, served.slot, &mut queue, budget, log, room);
    }
}

// The list turned round, so that the plant in this slot stands last.
fn keep<R: Files + RandomSource + Complain>(
    rt: &R,
    list: &[u8],
    slot: u8,
    path: &[u8],
) -> Result<()> {
    let n = slot as usize + 1;
    save::save(
        rt,
        b"",
        path,
        lines::take_after(list, n),
        lines::take_through(list, n),
    )
}

// The plant is counted by what its files say after the turn: it may be one that can't be served, or
// whose book or checkpoint another program changed meanwhile.
fn serve<R: Files + Print + Alloc + RandomSource + Complain>(
    rt: &R,
    list: &[u8],
    i: usize,
    queue: &mut Queue,
    budget: u32,
    log: &mut Log,
    room: &mut [u8],
) {
    let left = plant::ask(
        rt,
        lines::take_line(list, i),
        Asked::Turn(budget),
        log,
        room,
    );
    // Every slot below is taken, so that the plant gets its own again.
    let _ = queue.remove(i);
    let _ = queue.add(left);
}
