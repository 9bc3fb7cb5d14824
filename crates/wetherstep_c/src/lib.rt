// The calls of `wetherstep` as C links them: include/wetherstep.h declares them. Each does what the
// library's function of its name does, and states its clauses again.
#![tactic(auto)]

ghost use Rattle.std.specs.Prelude.{◌≡◌};
ghost use Rattle.job.specs.Wake.{fresh_reply, fresh_bytes, wake_reply, wake_bytes};
ghost use Rattle.job.specs.Report.{report_reply, left_reply};
ghost use Rattle.wetherstep.specs.Face.{word_of, figures_after};

use wetherstep::face;

#[unsafe(no_mangle)]
pub extern "C" fn wetherstep_fresh(book: &[u8], out: &mut [u8]) -> u64
    ensures word { result ≡ word_of (fresh_reply book.now out.old) }
    ensures bytes { out.new ≡ fresh_bytes book.now out.old }
{
    face::wetherstep_fresh(book, out)
}

#[unsafe(no_mangle)]
pub extern "C" fn wetherstep_wake(
    book: &[u8],
    checkpoint: &[u8],
    budget: u32,
    out: &mut [u8],
) -> u64
    ensures word { result ≡ word_of (wake_reply book.now checkpoint.now budget out.old) }
    ensures bytes { out.new ≡ wake_bytes book.now checkpoint.now budget out.old }
{
    face::wetherstep_wake(book, checkpoint, budget, out)
}

#[unsafe(no_mangle)]
pub extern "C" fn wetherstep_report(book: &[u8], checkpoint: &[u8], figures: &mut [u64; 6]) -> u64
    ensures word { result ≡ word_of (report_reply book.now checkpoint.now) }
    ensures figures { figures.new ≡ figures_after (report_reply book.now checkpoint.now) figures.old }
{
    face::wetherstep_report(book, checkpoint, figures)
}

#[unsafe(no_mangle)]
pub extern "C" fn wetherstep_left(book: &[u8], checkpoint: &[u8]) -> u64
    ensures word { result ≡ word_of (left_reply book.now checkpoint.now) }
{
    face::wetherstep_left(book, checkpoint)
}
