// Frames of `replay`: the head of a call is read, and its answer written.
ghost use Rattle.std.specs.Prelude.{◌≡◌, length, Ok};
ghost use Rattle.choice.specs.Tests.{choose};
ghost use Rattle.rules.specs.Reader.{shown, sight};
ghost use Rattle.text.specs.Page.{page_of};
ghost use Rattle.text.specs.Extended.{extended};
ghost use Rattle.text.specs.Frame.{argument_ok, head_ok, call_of, frame_in, asked_in, call_answer, same, figures_part, change_part, report_part, report_answer, ledger_number, uncounted, told_of, told_bytes, record_answer, breach_text, broken_text};

use crate::page::Page;
use crate::{number, page};
use mass::{Ng, Ug};
use rules::book;
use rules::bytes::{are_zero, read_word};
use rules::entry::{Destination, Entry};
use rules::reader::{Seen, Shown};

// What a frame calls.
#[derive(Clone, Copy)]
pub enum Call {
    Fresh,
    Wake,
    Report,
    // A look at one record.
    Record,
}

#[derive(Clone, Copy)]
pub struct Frame {
    pub call: Call,
    // The budget of a wake, the index of a record, and else 0.
    pub argument: u32,
    // How many bytes of each follow the head: MOST_BEHIND at most, together.
    pub book: usize,
    pub checkpoint: usize,
    pub out: usize,
}

// Why the answers end at a frame.
#[derive(Clone, Copy)]
pub enum Broken {
    // Its head breaks a rule.
    Head,
    // The input ends within it.
    Cut,
}

const SIZE: usize = 24;

// Where each field of a head stands.
const CALL: usize = 0;

const GAP: usize = 1;

const ARGUMENT: usize = 4;

const BOOK: usize = 8;

const CHECKPOINT: usize = 12;

const OUT: usize = 16;

const BLANK: usize = 20;

// The most bytes behind a head: book, checkpoint and buffer together.
pub const MOST_BEHIND: u64 = 5242880;

// What the bytes ask for; none, if they are no right head: nothing is answered from here on.
pub fn read(head: &[u8]) -> Option<Frame>
    ensures asked { result ≡ asked_in head.now }
{
    if head.len() != SIZE {
        return None;
    }
    if is_right(head) {
        return Some(take_frame(head));
    }
    None
}

fn is_right(head: &[u8]) -> bool
    requires whole { length head.now ≡ 24 }
    ensures right { result ≡ head_ok head.now }
{
    let call = read_word(head, CALL, 1);
    let gap = are_zero(head, GAP, ARGUMENT);
    let argument_right = is_argument_right(call, read_word(head, ARGUMENT, 4));
    let book = read_word(head, BOOK, 4);
    let checkpoint = read_word(head, CHECKPOINT, 4);
    let out = read_word(head, OUT, 4);
    let blank = are_zero(head, BLANK, SIZE);
    (1 <= call)
        & (call <= 4)
        & gap
        & argument_right
        & (book + checkpoint + out <= MOST_BEHIND)
        & blank
}

fn is_argument_right(call: u64, argument: u64) -> bool
    ensures right { result ≡ argument_ok call argument }
{
    (call == 2) | (call == 4) | (argument == 0)
}

#[tactic(auto, unfolding(crate::specs::Frame::frame_in))]
fn take_frame(head: &[u8]) -> Frame
    requires whole { length head.now ≡ 24 }
    ensures frame { result ≡ frame_in head.now }
{
    let call = take_call(read_word(head, CALL, 1));
    let argument = read_word(head, ARGUMENT, 4) as u32;
    let book = read_word(head, BOOK, 4) as usize;
    let checkpoint = read_word(head, CHECKPOINT, 4) as usize;
    let out = read_word(head, OUT, 4) as usize;
    Frame {
        call,
        argument,
        book,
        checkpoint,
        out,
    }
}

// The call of this number, 1 to 4.
fn take_call(number: u64) -> Call
    ensures call { result ≡ call_of number }
{
    match number {
        1 => Call::Fresh,
        2 => Call::Wake,
        3 => Call::Report,
        _ => Call::Record,
    }
}

// The answer to a fresh start or a wake: the reply word of the C face.
pub fn answer_call(word: u64) -> Page
    ensures answer { result ≡ page_of (call_answer word) }
{
    let p = number::say_bytes(page::take_blank(), 8, word);
    number::say_bytes(p, 56, 0)
}

// The answer to a report: the reply word, and the figures as they stood before the call and after.
pub fn answer_report(word: u64, before: [u64; 6], after: [u64; 6]) -> Page
    ensures answer { result ≡ page_of (report_answer word before after) }
{
    let p = number::say_bytes(page::take_blank(), 8, word);
    let p = say_part(p, word % 256, before, after);
    number::say_bytes(p, 14, 0)
}

fn say_part(p: Page, n: u64, before: [u64; 6], after: [u64; 6]) -> Page
    ensures said { result ≡ extended p (report_part n before after) }
{
    if n == 0 {
        return say_figures(p, after);
    }
    say_change(p, before, after)
}

fn say_figures(p: Page, figures: [u64; 6]) -> Page
    ensures said { result ≡ extended p (figures_part figures) }
{
    let p = number::say_bytes(p, 8, figures[0]);
    let p = number::say_bytes(p, 8, figures[1]);
    let p = number::say_bytes(p, 8, figures[2]);
    let p = number::say_bytes(p, 8, figures[3]);
    let p = number::say_bytes(p, 8, figures[4]);
    let p = number::say_bytes(p, 1, figures[5]);
    number::say_bytes(p, 1, 0)
}

fn say_change(p: Page, before: [u64; 6], after: [u64; 6]) -> Page
    ensures said { result ≡ extended p (change_part before after) }
{
    let p = number::say_bytes(p, 41, 0);
    number::say_bytes(p, 1, tell_change(before, after))
}

fn tell_change(before: [u64; 6], after: [u64; 6]) -> u64
    ensures change { result ≡ choose (same before after) 0 1 }
{
    if before == after { 0 } else { 1 }
}

// What is told of a record, with 0 for what doesn't apply.
#[derive(Clone, Copy)]
struct Told {
    // 20 to 23 where the book is refused.
    number: u64,
    // 1 to 8 where the record was set aside.
    reason: u64,
    // 0 for an hour, 255 where there is no such record.
    method: u64,
    // 1 fossil, 2 biomass.
    ledger: u64,
    co2: Ug,
    ch4: Ng,
    n2o: Ng,
}

// The answer to a look at a record.
pub fn answer_record(seen: Seen) -> Page
    ensures answer { result ≡ page_of (record_answer (sight seen)) }
{
    let t = tell(seen);
    let p = number::say_bytes(page::take_blank(), 1, t.number);
    let p = number::say_bytes(p, 1, t.reason);
    let p = number::say_bytes(p, 1, t.method);
    let p = number::say_bytes(p, 1, t.ledger);
    let p = number::say_bytes(p, 4, 0);
    let p = number::say_bytes(p, 8, t.co2.0);
    let p = number::say_bytes(p, 8, t.ch4.0);
    let p = number::say_bytes(p, 8, t.n2o.0);
    number::say_bytes(p, 32, 0)
}

fn tell(seen: Seen) -> Told
    ensures told { result ≡ told_of (sight seen) }
{
    match seen {
        Err(fault) => tell_uncounted(book::number_fault(fault) as u64, 0, 0),
        Ok(None) => tell_uncounted(0, 0, 255),
        Ok(Some(o)) => tell_outcome(o),
    }
}

fn tell_outcome(o: Shown) -> Told
    ensures told { result ≡ told_of (shown o) }
{
    match o {
        Err(reason) => tell_uncounted(0, reason as u64, 0),
        Ok(e) => tell_counted(e),
    }
}

fn tell_uncounted(number: u64, reason: u64, method: u64) -> Told
    ensures told { result ≡ uncounted number reason method }
{
    Told {
        number,
        reason,
        method,
        ledger: 0,
        co2: Ug(0),
        ch4: Ng(0),
        n2o: Ng(0),
    }
}

fn tell_counted(e: Entry) -> Told
    ensures told { result ≡ told_of (shown (Ok e)) }
{
    let destination = e.destination;
    let ledger = number_ledger(destination);
    let co2 = e.co2;
    let ch4 = e.ch4;
    let n2o = e.n2o;
    Told {
        number: 0,
        reason: 0,
        method: e.method as u64,
        ledger,
        co2,
        ch4,
        n2o,
    }
}

fn number_ledger(d: Destination) -> u64
    ensures number { result ≡ ledger_number d }
{
    match d {
        Destination::Fossil => 1,
        Destination::Biomass => 2,
        Destination::Nowhere => 0,
    }
}

// The line on the frame at which the answers end; the first frame is frame 0.
pub fn tell_broken(i: u64, x: Broken) -> Page
    ensures text { result ≡ page_of (broken_text i x) }
{
    let p = number::say_field(page::take_blank(), b"frame ", i);
    say_breach(p, x)
}

fn say_breach(p: Page, x: Broken) -> Page
    ensures said { result ≡ extended p (breach_text x) }
{
    match x {
        Broken::Head => page::say(p, b" has a head that breaks the rules\n"),
        Broken::Cut => page::say(p, b" is cut short\n"),
    }
}
