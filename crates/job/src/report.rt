// The report: figures once every record was counted, and until then why they are withheld. Beside it
// the count of the records left.
ghost use Rattle.std.specs.Prelude.{◌≡◌, length};
ghost use Rattle.job.specs.Checkpoint.{checkpoint_size};
ghost use Rattle.job.specs.Words.{totals_in};
ghost use Rattle.job.specs.Reply.{reported, remaining};
ghost use Rattle.job.specs.Report.{warming_of, report_reply, left_reply};

use crate::reply::{Refusal, Report};
use crate::{admission, checkpoint, ledgers};
use mass::figures;
use mass::figures::Warming;
use mass::ledger::Ledgers;
use rules::book;

pub fn report(book: &[u8], from: &[u8]) -> Result<Report, Refusal>
    ensures reply { reported result ≡ report_reply book.now from.now }
{
    let h = book::open(book)?;
    admission::admit(h, from)?;
    let t = checkpoint::read_counts(from);
    if (t.done as usize) < h.n {
        return Ok(Report::Unfinished(t.done));
    }
    if 0 < t.aside {
        return Ok(Report::RecordAside(t.index, t.reason));
    }
    Ok(Report::Given(figures::work_out(find_totals(from), find_warming(h.warming))))
}

// The four masses of which a report tells.
fn find_totals(from: &[u8]) -> Ledgers
    requires whole { length from.now ≡ checkpoint_size }
    ensures totals { result ≡ totals_in from.now }
{
    Ledgers {
        fossil: checkpoint::read_ledger(from, ledgers::FOSSIL),
        biomass: checkpoint::read_ledger(from, ledgers::BIOMASS),
        ch4: checkpoint::read_ledger(from, ledgers::CH4),
        n2o: checkpoint::read_ledger(from, ledgers::N2O),
    }
}

// The first set is the TSD's, the second that of Part 98's Table A-1 as amended in 2013.
fn find_warming(set: u8) -> Warming
    ensures pair { result ≡ warming_of set }
{
    if set == 0 {
        return Warming { ch4: 21, n2o: 310 };
    }
    Warming { ch4: 25, n2o: 298 }
}

// How many records of the book are left.
pub fn count_left(book: &[u8], from: &[u8]) -> Result<u32, Refusal>
    ensures reply { remaining result ≡ left_reply book.now from.now }
{
    let h = book::open(book)?;
    admission::admit(h, from)?;
    let t = checkpoint::read_counts(from);
    let left = h.n as u32 - t.done;
    Ok(left)
}
