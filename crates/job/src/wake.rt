// A fresh start, and a wake that goes on from a checkpoint.
ghost use Rattle.std.specs.Prelude.{◌≡◌};
ghost use Rattle.job.specs.Reply.{started, woken};
ghost use Rattle.job.specs.Wake.{fresh_reply, fresh_bytes, wake_reply, wake_bytes};

use crate::counts::Aside;
use crate::reply::Refusal;
use crate::{admission, checkpoint, ledgers, run};
use rules::book;

// A checkpoint of the book with nothing done, in the buffer. A refusal leaves the buffer as it was.
pub fn fresh(book: &[u8], out: &mut [u8]) -> Result<(), Refusal>
    ensures reply { started result ≡ fresh_reply book.now out.old }
    ensures bytes { out.new ≡ fresh_bytes book.now out.old }
{
    let h = book::open(book)?;
    if out.len() != checkpoint::SIZE {
        return Err(Refusal::BufferLength);
    }
    let blank = [0u8; checkpoint::SIZE];
    let nothing = [0u64; ledgers::WORDS];
    let none = Aside {
        count: 0,
        index: 0,
        reason: 0,
    };
    checkpoint::write(h, 0, &none, &blank, &nothing, out);
    Ok(())
}

// The checkpoint after at most `budget` records more, from where `from` stands, in the buffer; and how many records
// were gone through. A refusal leaves the buffer as it was.
pub fn wake(book: &[u8], from: &[u8], budget: u32, out: &mut [u8]) -> Result<u32, Refusal>
    ensures reply { woken result ≡ wake_reply book.now from.now budget out.old }
    ensures bytes { out.new ≡ wake_bytes book.now from.now budget out.old }
{
    let h = book::open(book)?;
    admission::admit(h, from)?;
    if out.len() != checkpoint::SIZE {
        return Err(Refusal::BufferLength);
    }
    let c = checkpoint::read_counts(from);
    let left = h.n as u32 - c.done;
    let n = budget.min(left);
    run::go_through(book, h, c, n, from, out);
    Ok(n)
}
