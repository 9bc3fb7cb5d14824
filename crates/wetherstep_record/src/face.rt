// The look at a record for C: a reply is one word, and masses go to a buffer that the caller lends.
// include/wetherstep.h declares it, and `wetherstep_record_c` exports it.
ghost use Rattle.std.specs.Prelude.{◌≡◌, Ok};
ghost use Rattle.rules.specs.Reader.{shown, sight_at, sight};
ghost use Rattle.wetherstep.specs.Face.{packed};
ghost use Rattle.wetherstep_record.specs.Face.{ledger_number, record_word, masses_of, masses_after};

use rules::entry::{Destination, Entry};
use rules::reader::{Seen, Shown};
use rules::{book, reader};

// What one of each field is worth in a word.
const REASON_UNIT: u64 = 256;

const METHOD_UNIT: u64 = 65_536;

const LEDGER_UNIT: u64 = 16_777_216;

const ACCEPTED: u8 = 0;

// In place of a method.
const NO_RECORD: u8 = 255;

pub fn wetherstep_record(book: &[u8], index: u32, masses: &mut [u64; 3]) -> u64
    ensures word { result ≡ record_word (sight_at book.now index) }
    ensures masses { masses.new ≡ masses_after (sight_at book.now index) masses.old }
{
    tell_record(reader::look(book, index as usize), masses)
}

fn tell_record(x: Seen, masses: &mut [u64; 3]) -> u64
    ensures word { result ≡ record_word (sight x) }
    ensures masses { masses.new ≡ masses_after (sight x) masses.old }
{
    match x {
        Err(fault) => pack(book::number_fault(fault), 0, 0, 0),
        Ok(None) => pack(ACCEPTED, 0, NO_RECORD, 0),
        Ok(Some(o)) => tell_outcome(o, masses),
    }
}

fn tell_outcome(o: Shown, masses: &mut [u64; 3]) -> u64
    ensures word { result ≡ record_word (shown o) }
    ensures masses { masses.new ≡ masses_after (shown o) masses.old }
{
    match o {
        Err(reason) => pack(ACCEPTED, reason, 0, 0),
        Ok(e) => tell_counted(e, masses),
    }
}

fn tell_counted(e: Entry, masses: &mut [u64; 3]) -> u64
    ensures word { result ≡ record_word (shown (Ok e)) }
    ensures masses { masses.new ≡ masses_of e }
{
    let destination = e.destination;
    *masses = [e.co2.0, e.ch4.0, e.n2o.0];
    pack(ACCEPTED, 0, e.method, number_ledger(destination))
}

fn number_ledger(d: Destination) -> u8
    ensures number { result ≡ ledger_number d }
{
    match d {
        Destination::Fossil => 1,
        Destination::Biomass => 2,
        Destination::Nowhere => 0,
    }
}

// The types bound each field, so that none runs into the next.
fn pack(number: u8, reason: u8, method: u8, ledger: u8) -> u64
    ensures word { result ≡ packed number reason method ledger 0 }
{
    number as u64
        + REASON_UNIT * (reason as u64)
        + METHOD_UNIT * (method as u64)
        + LEDGER_UNIT * (ledger as u64)
}
