// What the calls answer. specs/Reply.antt gives the number and the values of each case.
ghost use Rattle.std.specs.Prelude.{◌≡◌};
ghost use Rattle.job.specs.Reply.{refusal_number};
ghost use Rattle.job.specs.declared.reply.Refusal.TheVariants.{Book};

use mass::figures::Figures;
use rules::book;
use rules::book::Fault;

// Why a call was turned away. Nothing was written.
#[derive(Clone, Copy)]
pub enum Refusal {
    // 20 to 23: the book is not sound.
    Book(Fault),
    // 30: the checkpoint isn't 96 bytes long.
    CheckpointLength,
    // 31: the checkpoint isn't sound for this book.
    CheckpointUnsound,
    // 32: the output buffer isn't 96 bytes long.
    BufferLength,
}

impl From<Fault> for Refusal {
    ghost from_gives = { λ x r. r ≡ Book x };

    fn from(x: Fault) -> Refusal {
        Refusal::Book(x)
    }
}

// The number of a refusal.
pub fn number_refusal(x: Refusal) -> u8
    ensures number { result ≡ refusal_number x }
{
    match x {
        Refusal::Book(fault) => book::number_fault(fault),
        Refusal::CheckpointLength => 30,
        Refusal::CheckpointUnsound => 31,
        Refusal::BufferLength => 32,
    }
}

// What a report says of a checkpoint that is let in.
#[derive(Clone, Copy)]
pub enum Report {
    // 40: so many records are done, and some are left.
    Unfinished(u32),
    // 41: the index of the first record set aside, and its reason.
    RecordAside(u32, u8),
    // Every record was counted.
    Given(Figures),
}
