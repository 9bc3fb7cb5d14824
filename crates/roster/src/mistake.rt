// What is wrong with a line that isn't a plant's.
ghost use Rattle.std.specs.Prelude.{◌≡◌};
ghost use Rattle.roster.specs.Mistake.{is_long, mistake_in};

use crate::plants;

#[derive(Clone, Copy)]
pub enum Mistake {
    // The line begins with `#`.
    Comment,
    // It ends in a return, as lines of some other systems do.
    Return,
    // It has two spaces or more.
    Space,
    // Its BOOK or its CHECKPOINT is longer than a path may be.
    Long,
    // None of these.
    Form,
}

// The first mistake that a line shows. One that is a plant's may be asked too: it shows none that has a name.
pub fn find(line: &[u8]) -> Mistake
    ensures mistake { result ≡ mistake_in line.now }
{
    if plants::is_comment(line) {
        return Mistake::Comment;
    }
    if line.ends_with(b"\r") {
        return Mistake::Return;
    }
    // A second space stands behind the first, in what is named as CHECKPOINT.
    if plants::take_checkpoint(line).contains(&plants::SPACE) {
        return Mistake::Space;
    }
    if is_long(line) {
        return Mistake::Long;
    }
    Mistake::Form
}

#[tactic(auto, using(crate::proofs::MistakeLaws::long_tests))]
fn is_long(line: &[u8]) -> bool
    ensures long { result ≡ is_long line.now }
{
    plants::LONGEST_BOOK_PATH < plants::take_book(line).len()
        || plants::LONGEST_CHECKPOINT_PATH < plants::take_checkpoint(line).len()
}
