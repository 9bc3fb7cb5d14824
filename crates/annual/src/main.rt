// The annual report of the book on standard input, or the line that refuses it: `annual <BOOK`.
#![tactic(auto)]

use files::complain::Complain;
use files::ended::Ended;
use files::{arguments, ended};
use std::rt::Env;
use text::report;

fn main(rt: HostRuntime) {
    ended::tell(&rt, run(&rt));
}

fn run<R: Env + Input + Print + Complain>(rt: &R) -> Ended {
    if arguments::count(rt) != 1 {
        return ended::misuse(rt, b"usage: annual <BOOK\n");
    }
    let mut book = [0u8; report::ANNUAL_MOST];
    let Ok(n) = files::read_input(rt, &mut book) else {
        return Ended::Failed;
    };
    print_held(rt, &mut book, n)
}

// The first n of the bytes are the input or, where they are all, perhaps the start of a longer one. Such
// a book is refused for its length whatever stands in it, so that what follows may take its place.
fn print_held<R: Input + Print + Complain>(rt: &R, book: &mut [u8], n: usize) -> Ended {
    if n < book.len() {
        return print_year(rt, files::take_front(book, n), false);
    }
    let Ok(more) = files::read_on(rt, book) else {
        return Ended::Failed;
    };
    print_year(rt, book, more != 0)
}

fn print_year<R: Print + Complain>(rt: &R, book: &[u8], more: bool) -> Ended {
    files::print_page(rt, b"standard output", report::tell_annual(book, more))
}
