// What a wake prints once it has saved, and what an operator is told beside a refusal.
ghost use Rattle.std.specs.Prelude.{◌≡◌, ◌≤◌, ◌++◌, length};
ghost use Rattle.rules.specs.Book.{opened, accepted};
ghost use Rattle.job.specs.Reply.{refusal_number, reported};
ghost use Rattle.text.specs.Page.{page_of};
ghost use Rattle.text.specs.Extended.{extended};
ghost use Rattle.text.specs.Report.{reply_text};
ghost use Rattle.text.specs.Progress.{moved_text, progress_by, progress_with, progress_text, turn_text, hint_text};

use crate::page::Page;
use crate::{number, page, report};
use job::reply::{Refusal, Report};
use rules::book;
use rules::book::Head;

// How far a wake went that saved a checkpoint and, once the book is finished, its report.
pub fn tell_progress(book: &[u8], saved: &[u8], moved: u32) -> Page
    ensures text { result ≡ page_of (progress_text book.now saved.now moved) }
{
    tell(b"\ndone ", book, saved, moved)
}

// The same where wakes of several books are printed one below the other, each behind its name.
pub fn tell_turn(book: &[u8], saved: &[u8], moved: u32) -> Page
    ensures text { result ≡ page_of (turn_text book.now saved.now moved) }
{
    tell(b" done ", book, saved, moved)
}

fn tell(gap: &[u8], book: &[u8], saved: &[u8], moved: u32) -> Page
    requires short { length gap.now ≤ 6 }
    ensures text { result ≡ page_of (progress_with gap.now book.now saved.now moved) }
{
    match book::open(book) {
        Err(fault) => report::refuse_book(fault),
        Ok(h) => tell_open(gap, book, h, saved, moved),
    }
}

fn tell_open(gap: &[u8], book: &[u8], h: Head, saved: &[u8], moved: u32) -> Page
    requires short { length gap.now ≤ 6 }
    requires opened { opened book.now ≡ accepted h }
    ensures text { result ≡ page_of (progress_with gap.now book.now saved.now moved) }
{
    let r = job::report::report(book, saved);
    say_progress(page::take_blank(), gap, h, moved, r)
}

fn say_progress(p: Page, gap: &[u8], h: Head, moved: u32, r: Result<Report, Refusal>) -> Page
    ensures said { result ≡ extended p (progress_by gap.now h moved (reported r)) }
{
    match r {
        Err(x) => report::say_refusal(p, x),
        Ok(Report::Unfinished(done)) => say_moved(p, gap, h, moved, done as u64),
        Ok(Report::RecordAside(_, _)) => say_finished(p, gap, h, moved, r),
        Ok(Report::Given(_)) => say_finished(p, gap, h, moved, r),
    }
}

// Every record is done, and the report says what came of them.
fn say_finished(p: Page, gap: &[u8], h: Head, moved: u32, r: Result<Report, Refusal>) -> Page
    ensures said { result ≡ extended p (moved_text gap.now h moved h.n ++ reply_text h (reported r)) }
{
    let q = say_moved(p, gap, h, moved, h.n as u64);
    report::say_reported(q, h, r)
}

fn say_moved(p: Page, gap: &[u8], h: Head, moved: u32, done: u64) -> Page
    ensures said { result ≡ extended p (moved_text gap.now h moved done) }
{
    let q = number::say_field(p, b"moved ", moved as u64);
    let q = number::say_field(q, gap, done);
    number::say_line(q, b" of ", h.n as u64)
}

// What the operator does about a refusal, where there is something: the words stand behind the checkpoint's
// path.
pub fn hint(x: Refusal) -> Page
    ensures text { result ≡ page_of (hint_text (refusal_number x)) }
{
    match x {
        Refusal::Book(_) => page::take_blank(),
        Refusal::CheckpointLength => hint_fresh(),
        Refusal::CheckpointUnsound => hint_fresh(),
        Refusal::BufferLength => page::take_blank(),
    }
}

fn hint_fresh() -> Page
    ensures text { result ≡ page_of (hint_text 30) }
{
    page::say(
        page::take_blank(),
        b" isn't this book's checkpoint; wake BOOK CHECKPOINT BUDGET fresh starts anew\n",
    )
}
