// Several plants in turn, as a tablet starts it in the morning: `tablet LIST BUDGET`.
#![tactic(auto)]

mod log;
mod plant;
mod round;

use files::complain::Complain;
use files::ended::Ended;
use files::save::LONGEST_SAVED;
use files::{arguments, ended};
use roster::plants;
use roster::plants::Fault;
use std::random::RandomSource;
use std::rt::{Env, Files};
use text::budget;

// 16 of the longest lines come to 130,880 bytes: what is longer is wrong in what is read of it.
pub(crate) const LIST_ROOM: usize = 131072;

fn main(rt: HostRuntime) {
    ended::tell(&rt, run(&rt));
}

fn run<R: Env + Files + Print + Alloc + RandomSource + Complain>(rt: &R) -> Ended {
    if arguments::count(rt) != 3 {
        return misuse(rt);
    }
    let mut word = [0u8; 4096];
    let Ok(n) = rt.arg(2, &mut word) else {
        return misuse(rt);
    };
    let Some(b) = budget::read(&word[..n]) else {
        return misuse(rt);
    };
    read_path(rt, b)
}

fn misuse<R: Complain>(rt: &R) -> Ended {
    ended::misuse(rt, b"usage: tablet LIST BUDGET, of 1 or more\n")
}

fn read_path<R: Env + Files + Print + Alloc + RandomSource + Complain>(rt: &R, b: u32) -> Ended {
    // With a budget of 0 no turn would be the last.
    if b == 0 {
        return misuse(rt);
    }
    // The place is saved beside LIST, under a name of 6 bytes more.
    let mut path = [0u8; LONGEST_SAVED - 6];
    let Ok(n) = rt.arg(1, &mut path) else {
        return ended::misuse(rt, b"tablet: LIST is longer than 4082 bytes\n");
    };
    read_list(rt, &path[..n], b)
}

fn read_list<R: Files + Print + Alloc + RandomSource + Complain>(
    rt: &R,
    path: &[u8],
    b: u32,
) -> Ended {
    let mut list = [0u8; LIST_ROOM];
    let Ok(n) = files::read_file(rt, b"", path, &mut list) else {
        return Ended::Failed;
    };
    let end = end_line(&mut list, n);
    judge(rt, files::take_front(&list, end), path, b)
}

// A last line without its newline is given one, if there is room.
fn end_line(list: &mut [u8], n: usize) -> usize {
    if n == 0 || list.len() <= n || list[n - 1] == b'\n' {
        return n;
    }
    list[n] = b'\n';
    n + 1
}

fn judge<R: Files + Print + Alloc + RandomSource + Complain>(
    rt: &R,
    list: &[u8],
    path: &[u8],
    b: u32,
) -> Ended {
    let verdict = plants::judge(list);
    match verdict {
        Ok(n) => round::run(rt, list, n as usize, path, b),
        Err(_) => complain(rt, list, path, verdict),
    }
}

fn complain<R: Complain>(rt: &R, list: &[u8], path: &[u8], verdict: Result<u8, Fault>) -> Ended {
    rt.complain(path);
    files::tell_page(rt, b"", b": ", text::plants::tell_fault(list, verdict));
    Ended::Failed
}
