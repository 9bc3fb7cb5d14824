// What is told of a wrong list of plants.
ghost use Rattle.std.specs.Prelude.{◌+◌, ◌++◌, ◌≡◌};
ghost use Rattle.text.specs.Page.{page_of};
ghost use Rattle.text.specs.Extended.{extended};
ghost use Rattle.text.specs.Words as words;
ghost use Rattle.text.specs.Plants.{mistake_text, wrong_text, fault_text};

use crate::page::Page;
use crate::{number, page};
use roster::mistake::Mistake;
use roster::plants::Fault;
use roster::{lines, mistake};

// The line that is told behind the name of a list with this verdict; nothing of a list that is right.
pub fn tell_fault(list: &[u8], verdict: Result<u8, Fault>) -> Page
    ensures text { result ≡ page_of (fault_text list.now verdict) }
{
    say_fault(page::take_blank(), list, verdict)
}

#[tactic(auto, using(crate::proofs::PlantsLaws::fault_steps))]
fn say_fault(p: Page, list: &[u8], verdict: Result<u8, Fault>) -> Page
    ensures said { result ≡ extended p (fault_text list.now verdict) }
{
    match verdict {
        Ok(_) => p,
        Err(Fault::Wrong(i)) => say_wrong(p, i, lines::take_line(list, i as usize)),
        Err(Fault::Again(i)) => say_of_line(p, i, b" names a checkpoint again\n"),
        Err(Fault::Many) => page::say(p, b"more than 16 plants\n"),
    }
}

#[tactic(auto, using(crate::proofs::PlantsLaws::fault_steps))]
fn say_wrong(p: Page, i: u8, line: &[u8]) -> Page
    ensures said { result ≡ extended p (wrong_text i line.now) }
{
    say_of_line(p, i, name_mistake(mistake::find(line)))
}

fn name_mistake(mistake: Mistake) -> &'static [u8]
    ensures words { result.now ≡ mistake_text mistake }
{
    match mistake {
        Mistake::Comment => b" is a comment, and a list has none\n",
        Mistake::Return => b" ends in a return: save the list with plain newlines\n",
        Mistake::Space => b" has a space too many: no path in a list has one\n",
        Mistake::Long => b" has a path that is too long\n",
        Mistake::Form => b" isn't BOOK CHECKPOINT\n",
    }
}

// Editors count lines from 1.
fn say_of_line(p: Page, i: u8, what: &[u8]) -> Page
    ensures said { result ≡ extended p (words.field (words.ascii "line ") (i + 1) ++ what.now) }
{
    let p = number::say_field(p, b"line ", i as u64 + 1);
    page::say(p, what)
}
