// A line for each record of the book on standard input, or the line that refuses the book:
// `lines <BOOK`.
#![tactic(auto)]

use files::complain::Complain;
use files::ended::Ended;
use files::{arguments, ended};
use rules::{reader, table};
use std::rt::Env;
use text::lines;

fn main(rt: HostRuntime) {
    ended::tell(&rt, run(&rt));
}

fn run<R: Env + Input + Print + Complain>(rt: &R) -> Ended {
    if arguments::count(rt) != 1 {
        return ended::misuse(rt, b"usage: lines <BOOK\n");
    }
    let mut room = [0u8; files::BOOK_ROOM];
    print_book(rt, &mut room)
}

fn print_book<R: Input + Print + Complain>(rt: &R, room: &mut [u8]) -> Ended {
    let Ok(n) = files::read_input(rt, room) else {
        return Ended::Failed;
    };
    print_lines(rt, files::take_front(room, n))
}

// Each step sees a record and leads to the next one; a refused book has one step.
fn print_lines<R: Print + Complain>(rt: &R, book: &[u8]) -> Ended {
    let mut table = [0u64; table::WIDE];
    let mut at = 0;
    loop {
        let step = reader::take_step(book, at, &mut table);
        let seen = step.seen;
        let printed = files::print_page(
            rt,
            b"standard output",
            lines::tell_record(at, step.kind, seen),
        );
        if step.left == 0 || printed != Ended::Done {
            return printed;
        }
        at = step.next;
    }
}
