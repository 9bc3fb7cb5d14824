// The report, and each refusal, as text.
ghost use Rattle.std.specs.Prelude.{[], ◌∷◌, ◌≡◌, ◌≤◌};
ghost use Rattle.choice.specs.Tests.{choose};
ghost use Rattle.rules.specs.Book.{fault_number, opened, accepted};
ghost use Rattle.job.specs.Reply.{refusal_number, figure_values, reported};
ghost use Rattle.text.specs.Page.{page_of};
ghost use Rattle.text.specs.Extended.{extended};
ghost use Rattle.text.specs.Report.{refused_text, decision_text, figures_text, reply_text, year_text, annual_held};

use crate::page::Page;
use crate::{number, page};
use job::reply::{Refusal, Report};
use job::{checkpoint, reply};
use mass::figures::Figures;
use rules::book;
use rules::book::{Fault, Head};

// The most bytes of a book that `annual` takes, which is less than a book may have.
pub const ANNUAL_MOST: usize = 65536;

// What `annual` prints of the bytes that start with these, `more` saying whether others follow.
pub fn tell_annual(book: &[u8], more: bool) -> Page
    ensures text { result ≡ page_of (annual_held book.now more) }
{
    if more {
        return refuse_book(Fault::Length);
    }
    if ANNUAL_MOST < book.len() {
        return refuse_book(Fault::Length);
    }
    tell_year(book)
}

// The report of the book, whatever bytes it is.
fn tell_year(book: &[u8]) -> Page
    ensures text { result ≡ page_of (year_text book.now) }
{
    match book::open(book) {
        Err(fault) => refuse_book(fault),
        Ok(h) => tell_open(book, h),
    }
}

fn tell_open(book: &[u8], h: Head) -> Page
    requires opened { opened book.now ≡ accepted h }
    ensures text { result ≡ page_of (year_text book.now) }
{
    let mut begun = [0u8; checkpoint::SIZE];
    let _ = job::wake::fresh(book, &mut begun);
    let mut ended = [0u8; checkpoint::SIZE];
    let _ = job::wake::wake(book, &begun, u32::MAX, &mut ended);
    let r = job::report::report(book, &ended);
    say_reported(page::take_blank(), h, r)
}

// The line of a refusal.
pub fn refuse(x: Refusal) -> Page
    ensures text { result ≡ page_of (refused_text (refusal_number x) []) }
{
    say_refusal(page::take_blank(), x)
}

// The line of a book that is refused.
pub(crate) fn refuse_book(x: Fault) -> Page
    ensures text { result ≡ page_of (refused_text (fault_number x) []) }
{
    say_fault(page::take_blank(), x)
}

pub(crate) fn say_reported(p: Page, h: Head, r: Result<Report, Refusal>) -> Page
    ensures said { result ≡ extended p (reply_text h (reported r)) }
{
    match r {
        Err(x) => say_refusal(p, x),
        Ok(Report::Unfinished(_)) => say_number(p, 40),
        Ok(Report::RecordAside(i, reason)) => say_aside(p, i, reason),
        Ok(Report::Given(f)) => say_figures(p, h, f),
    }
}

pub(crate) fn say_refusal(p: Page, x: Refusal) -> Page
    ensures said { result ≡ extended p (refused_text (refusal_number x) []) }
{
    say_number(p, reply::number_refusal(x))
}

pub(crate) fn say_fault(p: Page, x: Fault) -> Page
    ensures said { result ≡ extended p (refused_text (fault_number x) []) }
{
    say_number(p, book::number_fault(x))
}

// The line of a number that stands alone.
fn say_number(p: Page, n: u8) -> Page
    requires alone { n ≤ 40 }
    ensures said { result ≡ extended p (refused_text n []) }
{
    number::say_line(p, b"refused ", n as u64)
}

fn say_aside(p: Page, i: u32, reason: u8) -> Page
    ensures said { result ≡ extended p (refused_text 41 (i ∷ reason ∷ [])) }
{
    let q = number::say_field(p, b"refused ", 41);
    let q = number::say_field(q, b" record ", i as u64);
    number::say_line(q, b" reason ", reason as u64)
}

fn say_figures(p: Page, h: Head, f: Figures) -> Page
    ensures said { result ≡ extended p (figures_text h (figure_values f)) }
{
    let q = number::say_line(p, b"year ", h.year);
    let q = number::say_line(q, b"records ", h.n as u64);
    let q = number::say_line(q, b"fossil-co2-kg ", f.fossil.0);
    let q = number::say_line(q, b"biomass-co2-kg ", f.biomass.0);
    let q = number::say_line(q, b"ch4-kg ", f.ch4.0);
    let q = number::say_line(q, b"n2o-kg ", f.n2o.0);
    let q = number::say_line(q, b"co2e-kg ", f.co2e.0);
    say_decision(q, f.reportable)
}

fn say_decision(p: Page, must: bool) -> Page
    ensures said { result ≡ extended p (decision_text (choose must 1 0)) }
{
    if must {
        return page::say(p, b"must-report yes\n");
    }
    page::say(p, b"must-report no\n")
}
