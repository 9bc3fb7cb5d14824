// What a list of plants says, line by line.
ghost use Rattle.std.specs.Prelude.{◌≡◌, map};
ghost use Rattle.roster.specs.Lines.{lines_of};
ghost use Rattle.roster.specs.Plants.{visible, is_word, book_of, checkpoint_of, is_comment, is_plant, named_before, verdict_on};

use crate::bytes;
use crate::lines::{Lines, NEWLINE};

// What is wrong with a list.
#[derive(Clone, Copy)]
pub enum Fault {
    // The line of this index isn't a plant's, or isn't ended.
    Wrong(u8),
    // The line of this index names a CHECKPOINT that a line before it names.
    Again(u8),
    // There are 16 plants, and something stands after them.
    Many,
}

const MOST_PLANTS: u8 = 16;

pub(crate) const LONGEST_BOOK_PATH: usize = 4095;

// A path has at most 4,095 bytes, and the names that are saved beside CHECKPOINT have up to 12 more.
pub(crate) const LONGEST_CHECKPOINT_PATH: usize = 4083;

pub(crate) const SPACE: u8 = b' ';

// The verdict on a list: how many plants it names, one a line, or its first fault.
pub fn judge(list: &[u8]) -> Result<u8, Fault>
    ensures verdict { result ≡ verdict_on list.now }
{
    let mut left = list;
    let mut i = 0;
    while !left.is_empty() {
        if i == MOST_PLANTS {
            return Err(Fault::Many);
        }
        let Some((line, next)) = bytes::split_once(left, NEWLINE) else {
            return Err(Fault::Wrong(i));
        };
        if !is_plant(line) {
            return Err(Fault::Wrong(i));
        }
        if is_named_before(list, i, line) {
            return Err(Fault::Again(i));
        }
        left = next;
        i += 1;
    }
    Ok(i)
}

// The BOOK that a line names: what stands before its first space.
#[tactic(auto, using(crate::proofs::PlantsLaws::word_cuts))]
pub fn take_book(line: &[u8]) -> &[u8]
    ensures book { result.now ≡ book_of line.now }
{
    match bytes::split_once(line, SPACE) {
        Some((book, _)) => book,
        None => line,
    }
}

// The CHECKPOINT that a line names: what stands after its first space.
#[tactic(auto, using(crate::proofs::PlantsLaws::word_cuts))]
pub fn take_checkpoint(line: &[u8]) -> &[u8]
    ensures checkpoint { result.now ≡ checkpoint_of line.now }
{
    match bytes::split_once(line, SPACE) {
        Some((_, checkpoint)) => checkpoint,
        None => &[],
    }
}

// Whether one of the lines before line i names this line's CHECKPOINT.
fn is_named_before(list: &[u8], i: u8, line: &[u8]) -> bool
    ensures named { result ≡ named_before (map checkpoint_of (lines_of list.now)) i line.now }
{
    let checkpoint = take_checkpoint(line);
    Lines(list)
        .take(i as usize)
        .any(|earlier| take_checkpoint(earlier) == checkpoint)
}

#[tactic(auto, using(crate::proofs::PlantsLaws::plant_tests))]
fn is_plant(line: &[u8]) -> bool
    ensures plant { result ≡ is_plant line.now }
{
    is_word(take_book(line), LONGEST_BOOK_PATH)
        && is_word(take_checkpoint(line), LONGEST_CHECKPOINT_PATH)
        && !is_comment(line)
}

// Whether a line begins with `#`: whoever wrote it meant no plant.
#[tactic(auto, using(crate::proofs::PlantsLaws::comment_tests))]
pub(crate) fn is_comment(line: &[u8]) -> bool
    ensures comment { result ≡ is_comment line.now }
{
    line.starts_with(b"#")
}

#[tactic(auto, using(crate::proofs::PlantsLaws::word_tests))]
fn is_word(w: &[u8], most: usize) -> bool
    ensures word { result ≡ is_word most w.now }
{
    1 <= w.len() && w.len() <= most && is_visible(w)
}

// Whether every byte is above the space and the control codes.
fn is_visible(w: &[u8]) -> bool
    ensures visible { result ≡ visible w.now }
{
    w.iter().all(|b| SPACE < *b)
}
