// Every record of a book as a line: its method and masses, or its reason.
ghost use Rattle.std.specs.Prelude.{◌++◌, ◌≡◌, Ok};
ghost use Rattle.rules.specs.Reader.{sight};
ghost use Rattle.text.specs.Page.{page_of};
ghost use Rattle.text.specs.Extended.{extended};
ghost use Rattle.text.specs.Words.{ascii, newline, field};
ghost use Rattle.text.specs.Lines.{method_text, ledger_text, masses_text, outcome_text, line_text};

use crate::page::Page;
use crate::{number, page, report};
use rules::entry::{Destination, Entry};
use rules::reader::{Seen, Shown};

// The method of an hour and of anodes.
const NO_METHOD: u8 = 0;

// The line of what is seen at place i of a book, where a record of this kind stands; none past the last
// record.
pub fn tell_record(i: usize, kind: u8, seen: Seen) -> Page
    ensures text { result ≡ page_of (line_text i kind (sight seen)) }
{
    say_seen(page::take_blank(), i, kind, seen)
}

fn say_seen(p: Page, i: usize, kind: u8, seen: Seen) -> Page
    ensures said { result ≡ extended p (line_text i kind (sight seen)) }
{
    match seen {
        Err(fault) => report::say_fault(p, fault),
        Ok(None) => p,
        Ok(Some(o)) => say_record(p, i, kind, o),
    }
}

fn say_record(p: Page, i: usize, kind: u8, o: Shown) -> Page
    ensures said { result ≡ extended p (field (ascii "record ") i ++ outcome_text kind o ++ newline) }
{
    let q = number::say_field(p, b"record ", i as u64);
    let q = say_outcome(q, kind, o);
    page::say(q, b"\n")
}

fn say_outcome(p: Page, kind: u8, o: Shown) -> Page
    ensures said { result ≡ extended p (outcome_text kind o) }
{
    match o {
        Err(reason) => number::say_field(p, b" reason ", reason as u64),
        Ok(e) => say_entry(p, kind, e),
    }
}

fn say_entry(p: Page, kind: u8, e: Entry) -> Page
    ensures said { result ≡ extended p (outcome_text kind (Ok e)) }
{
    let destination = e.destination;
    let q = say_method(p, kind, e.method);
    let q = say_ledger(q, destination);
    say_masses(q, e)
}

fn say_method(p: Page, kind: u8, method: u8) -> Page
    ensures said { result ≡ extended p (method_text kind method) }
{
    if method != NO_METHOD {
        return number::say_field(p, b" method ", method as u64);
    }
    if kind == 4 {
        return page::say(p, b" anodes");
    }
    page::say(p, b" hour")
}

fn say_ledger(p: Page, d: Destination) -> Page
    ensures said { result ≡ extended p (ledger_text d) }
{
    match d {
        Destination::Fossil => page::say(p, b" fossil"),
        Destination::Biomass => page::say(p, b" biomass"),
        Destination::Nowhere => page::say(p, b" none"),
    }
}

fn say_masses(p: Page, e: Entry) -> Page
    ensures said { result ≡ extended p (masses_text e) }
{
    let q = number::say_field(p, b" co2-ug ", e.co2.0);
    let q = number::say_field(q, b" ch4-ng ", e.ch4.0);
    number::say_field(q, b" n2o-ng ", e.n2o.0)
}
