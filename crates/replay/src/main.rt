// Answers a stream of calls, so that any other program can drive the library: `replay <FRAMES`.
#![tactic(auto)]

use files::complain::Complain;
use files::ended::Ended;
use files::{arguments, ended};
use rules::reader;
use std::io::Error;
use std::rt::Env;
use text::frame;
use text::frame::{Broken, Call, Frame};
use text::page::Page;
use wetherstep::face;

// What stands in `figures` before a report is asked for, so that a refusal that writes is seen.
const JUNK: [u64; 6] = [
    0x0123456789abcdef,
    0xfedcba9876543211,
    0x1032547698badcff,
    0xefcdab8967452301,
    0x5555aaaa5555aaab,
    0xa5a5a5a55a5a5a5b,
];

// The buffer that a call writes can't be lent from the array that holds the book and the checkpoint. Of
// the two, one has at most half of what stands behind a head, and the other may have all.
const LONG: usize = frame::MOST_BEHIND as usize;

const SHORT: usize = LONG / 2;

// Why no more frames are answered.
#[derive(Clone, Copy)]
enum Stopped {
    // The input is over.
    Over,
    Broken(Broken),
    // Standard error says what failed.
    Failed,
}

// What fails to be read or written here is told.
impl From<Error> for Stopped {
    fn from(_why: Error) -> Stopped {
        Stopped::Failed
    }
}

fn main(rt: HostRuntime) {
    ended::tell(&rt, run(&rt));
}

fn run<R: Env + Input + Print + Complain>(rt: &R) -> Ended {
    if arguments::count(rt) != 1 {
        return ended::misuse(rt, b"usage: replay <FRAMES\n");
    }
    let mut long = [0u8; LONG];
    let mut short = [0u8; SHORT];
    answer_all(rt, &mut long, &mut short)
}

// A proved loop has to end, and nothing says that the input does. So the loop counts to a number that
// no run reaches.
fn answer_all<R: Input + Print + Complain>(rt: &R, long: &mut [u8], short: &mut [u8]) -> Ended {
    for i in 0..u64::MAX {
        if let Err(why) = answer_next(rt, long, short) {
            return end_at(rt, i, why);
        }
    }
    Ended::Done
}

// How the program ends that stops at frame i.
fn end_at<R: Complain>(rt: &R, i: u64, why: Stopped) -> Ended {
    match why {
        Stopped::Over => Ended::Done,
        Stopped::Broken(how) => {
            files::tell_page(rt, b"", b"", frame::tell_broken(i, how));
            Ended::Failed
        }
        Stopped::Failed => Ended::Failed,
    }
}

fn answer_next<R: Input + Print + Complain>(
    rt: &R,
    long: &mut [u8],
    short: &mut [u8],
) -> Result<(), Stopped> {
    let mut head = [0u8; 24];
    let n = files::read_input(rt, &mut head)?;
    if n == 0 {
        return Err(Stopped::Over);
    }
    if n < head.len() {
        return Err(Stopped::Broken(Broken::Cut));
    }
    let Some(f) = frame::read(&head) else {
        return Err(Stopped::Broken(Broken::Head));
    };
    answer_frame(rt, f, long, short)
}

// The longer of the two goes where it fits.
fn answer_frame<R: Input + Print + Complain>(
    rt: &R,
    f: Frame,
    long: &mut [u8],
    short: &mut [u8],
) -> Result<(), Stopped> {
    if f.out <= short.len() {
        return answer_in(rt, f, long, short);
    }
    answer_in(rt, f, short, long)
}

// A head that was read asks for no more than the arrays hold.
fn answer_in<R: Input + Print + Complain>(
    rt: &R,
    f: Frame,
    first: &mut [u8],
    second: &mut [u8],
) -> Result<(), Stopped> {
    let n = f.book;
    let m = f.checkpoint;
    let k = f.out;
    if first.len() < n || first.len() - n < m || second.len() < k {
        return Err(Stopped::Broken(Broken::Head));
    }
    answer_parts(rt, f, &mut first[..n + m], &mut second[..k])
}

// The book and the checkpoint stand one behind the other, as in the input.
fn answer_parts<R: Input + Print + Complain>(
    rt: &R,
    f: Frame,
    parts: &mut [u8],
    out: &mut [u8],
) -> Result<(), Stopped> {
    fill(rt, parts)?;
    fill(rt, out)?;
    let p = call_on(f, parts, out);
    let bytes = p.bytes;
    files::print_bytes(rt, b"standard output", files::take_front(&bytes, p.len))?;
    files::print_bytes(rt, b"standard output", out)?;
    Ok(())
}

// Reads until buf is full.
fn fill<R: Input + Complain>(rt: &R, buf: &mut [u8]) -> Result<(), Stopped> {
    let n = files::read_input(rt, buf)?;
    if n < buf.len() {
        return Err(Stopped::Broken(Broken::Cut));
    }
    Ok(())
}

fn call_on(f: Frame, parts: &[u8], out: &mut [u8]) -> Page {
    let n = f.book;
    if parts.len() < n {
        return call(f, parts, b"", out);
    }
    call(f, &parts[..n], &parts[n..], out)
}

fn call(f: Frame, book: &[u8], checkpoint: &[u8], out: &mut [u8]) -> Page {
    match f.call {
        Call::Fresh => frame::answer_call(face::wetherstep_fresh(book, out)),
        Call::Wake => {
            frame::answer_call(face::wetherstep_wake(book, checkpoint, f.argument, out))
        }
        Call::Report => report(book, checkpoint),
        Call::Record => frame::answer_record(reader::look(book, f.argument as usize)),
    }
}

fn report(book: &[u8], checkpoint: &[u8]) -> Page {
    let mut figures = JUNK;
    let word = face::wetherstep_report(book, checkpoint, &mut figures);
    frame::answer_report(word, JUNK, figures)
}
