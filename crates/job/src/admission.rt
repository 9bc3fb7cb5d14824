// Whether a call may go on from a checkpoint: the tests that a wake, a report and a count share.
ghost use Rattle.std.specs.Prelude.{◌≡◌};
ghost use Rattle.job.specs.Wake.{admitted_for};
ghost use Rattle.job.specs.Admission.{admission};

use crate::checkpoint;
use crate::reply::Refusal;
use rules::book::Head;

// Lets in a checkpoint that is sound for a book that was opened, or tells the first rule that it breaks. The head
// isn't handed back: the caller has it, and the way through a result would cost a wake of no record a fourth of
// its time.
pub(crate) fn admit(h: Head, from: &[u8]) -> Result<(), Refusal>
    ensures admitted { admission h result ≡ admitted_for h from.now }
{
    if from.len() != checkpoint::SIZE {
        return Err(Refusal::CheckpointLength);
    }
    if !checkpoint::is_sound(h, from) {
        return Err(Refusal::CheckpointUnsound);
    }
    Ok(())
}
