// The calls of the job for C: a reply is one word, and figures go to a buffer that the caller lends.
// include/wetherstep.h declares them, and `wetherstep_c` exports them.
ghost use Rattle.std.specs.Prelude.{◌≡◌};
ghost use Rattle.job.specs.Reply.{figure_values, woken, reported};
ghost use Rattle.job.specs.Wake.{fresh_reply, fresh_bytes, wake_reply, wake_bytes};
ghost use Rattle.job.specs.Report.{report_reply, left_reply};
ghost use Rattle.wetherstep.specs.Face.{packed, word_of, figures_after};

use job::reply::{Refusal, Report};
use job::{reply, report, wake};
use mass::figures::Figures;

// What one of the reason, and one of the count, is worth in a word.
const REASON_UNIT: u64 = 256;

const COUNT_UNIT: u64 = 4_294_967_296;

const ACCEPTED: u8 = 0;

const UNFINISHED: u8 = 40;

const RECORD_ASIDE: u8 = 41;

#[tactic(auto, using(crate::proofs::FaceLaws::word_of_started))]
pub fn wetherstep_fresh(book: &[u8], out: &mut [u8]) -> u64
    ensures word { result ≡ word_of (fresh_reply book.now out.old) }
    ensures bytes { out.new ≡ fresh_bytes book.now out.old }
{
    tell_count(wake::fresh(book, out).and(Ok(0)))
}

pub fn wetherstep_wake(book: &[u8], checkpoint: &[u8], budget: u32, out: &mut [u8]) -> u64
    ensures word { result ≡ word_of (wake_reply book.now checkpoint.now budget out.old) }
    ensures bytes { out.new ≡ wake_bytes book.now checkpoint.now budget out.old }
{
    tell_count(wake::wake(book, checkpoint, budget, out))
}

pub fn wetherstep_report(book: &[u8], checkpoint: &[u8], figures: &mut [u64; 6]) -> u64
    ensures word { result ≡ word_of (report_reply book.now checkpoint.now) }
    ensures figures { figures.new ≡ figures_after (report_reply book.now checkpoint.now) figures.old }
{
    tell_report(report::report(book, checkpoint), figures)
}

#[tactic(auto, using(crate::proofs::FaceLaws::word_of_left))]
pub fn wetherstep_left(book: &[u8], checkpoint: &[u8]) -> u64
    ensures word { result ≡ word_of (left_reply book.now checkpoint.now) }
{
    tell_count(report::count_left(book, checkpoint))
}

// What a call answers that tells a count, or nothing but that it was accepted, as 0.
fn tell_count(r: Result<u32, Refusal>) -> u64
    ensures word { result ≡ word_of (woken r) }
{
    match r {
        Err(x) => pack(reply::number_refusal(x), 0, 0),
        Ok(count) => pack(ACCEPTED, 0, count),
    }
}

fn tell_report(r: Result<Report, Refusal>, figures: &mut [u64; 6]) -> u64
    ensures word { result ≡ word_of (reported r) }
    ensures figures { figures.new ≡ figures_after (reported r) figures.old }
{
    match r {
        Err(x) => tell_count(Err(x)),
        Ok(Report::Unfinished(done)) => pack(UNFINISHED, 0, done),
        Ok(Report::RecordAside(index, reason)) => pack(RECORD_ASIDE, reason, index),
        Ok(Report::Given(f)) => {
            *figures = list(f);
            pack(ACCEPTED, 0, 0)
        }
    }
}

fn list(f: Figures) -> [u64; 6]
    ensures values { result ≡ figure_values f }
{
    let mut must = 0;
    if f.reportable {
        must = 1;
    }
    [f.fossil.0, f.biomass.0, f.ch4.0, f.n2o.0, f.co2e.0, must]
}

// The types bound each field, so that none runs into the next.
fn pack(number: u8, reason: u8, count: u32) -> u64
    ensures word { result ≡ packed number reason 0 0 count }
{
    number as u64 + REASON_UNIT * (reason as u64) + COUNT_UNIT * (count as u64)
}
