// One wake of a job that is kept in files: `wake BOOK CHECKPOINT BUDGET [fresh]`.
#![tactic(auto)]

mod kept;

use files::complain::Complain;
use files::copy::LONGEST_CHECKPOINT;
use files::ended::Ended;
use files::save::LONGEST_PATH;
use files::{arguments, ended};
use std::random::RandomSource;
use std::rt::{Env, Files};
use text::budget;

fn main(rt: HostRuntime) {
    ended::tell(&rt, run(&rt));
}

fn run<R: Env + Files + Print + Alloc + RandomSource + Complain>(rt: &R) -> Ended {
    let words = arguments::count(rt);
    if words == 4 {
        return read_budget(rt, false);
    }
    if words == 5 && is_fresh_asked(rt) {
        return read_budget(rt, true);
    }
    misuse(rt)
}

fn misuse<R: Complain>(rt: &R) -> Ended {
    ended::misuse(rt, b"usage: wake BOOK CHECKPOINT BUDGET [fresh]\n")
}

// Whether the fourth argument is `fresh`.
fn is_fresh_asked<R: Env>(rt: &R) -> bool {
    let mut word = [0u8; 5];
    match rt.arg(4, &mut word) {
        Ok(n) => &word[..n] == b"fresh".as_slice(),
        Err(_) => false,
    }
}

fn read_budget<R: Env + Files + Print + Alloc + RandomSource + Complain>(
    rt: &R,
    anew: bool,
) -> Ended {
    let mut word = [0u8; 4096];
    let Ok(n) = rt.arg(3, &mut word) else {
        return misuse(rt);
    };
    let Some(b) = budget::read(&word[..n]) else {
        return misuse(rt);
    };
    read_paths(rt, b, anew)
}

fn read_paths<R: Env + Files + Print + Alloc + RandomSource + Complain>(
    rt: &R,
    b: u32,
    anew: bool,
) -> Ended {
    let mut book = [0u8; LONGEST_PATH];
    let Ok(n) = rt.arg(1, &mut book) else {
        return ended::misuse(rt, b"wake: BOOK is longer than 4095 bytes\n");
    };
    let mut checkpoint = [0u8; LONGEST_CHECKPOINT];
    let Ok(m) = rt.arg(2, &mut checkpoint) else {
        return ended::misuse(rt, b"wake: CHECKPOINT is longer than 4083 bytes\n");
    };
    // The copy beside no name would have one, and the checkpoint none.
    if m == 0 {
        return misuse(rt);
    }
    kept::run(rt, &book[..n], &checkpoint[..m], b, anew)
}
