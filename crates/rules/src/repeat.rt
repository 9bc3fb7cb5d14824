// What becomes of a record that was sent before, and whether it was, by a look at each earlier one.
ghost use Rattle.std.specs.Prelude.{◌≡◌, ℕ, ◌+◌, ◌-◌, ◌/◌, ◌<◌, ◌≤◌, List, length};
ghost use Rattle.rules.specs.Bytes.{line, lines};
ghost use Rattle.rules.specs.Repeat.{stands_among, repeatable, repeated};
ghost use Rattle.rules.specs.Record.{unless_repeated};
ghost use Rattle.rules.specs.Key.{Start, Keyed, stands_in};

use crate::bytes::Line;
use crate::record::{Outcome, Reason};
use crate::{bytes, field};

// Kind, unit and period in the first eight bytes of a record.
const MASK: u64 = 0xFFFF_0000_FFFF_00FF;

// The outcome of record i, that of its own line being o. Only one that would count is looked for.
pub(crate) fn look_back(book: &[u8], i: usize, o: Outcome) -> Outcome
    requires there { i < length book.now / 32 }
    ensures outcome { result ≡ unless_repeated (repeated (line i book.now) (lines i book.now)) o }
{
    let entry = o?;
    if is_repeated(book, i) {
        return Err(Reason::Repeated);
    }
    Ok(entry)
}

// Whether a unit has one such record for each hour, or for each month.
pub(crate) fn is_repeatable(l: &Line) -> bool
    ensures repeatable { result ≡ repeatable l.now }
{
    let kind = field::kind(l);
    (kind == 2) | (kind == 4)
}

// Whether record i is one of those and stands in an earlier record.
fn is_repeated(book: &[u8], i: usize) -> bool
    requires there { i < length book.now / 32 }
    ensures repeated { result ≡ repeated (line i book.now) (lines i book.now) }
{
    if !is_repeatable(bytes::take_line(book, i)) {
        return false;
    }
    does_stand(book, i)
}

// Whether kind, unit and period of record i stand in an earlier one. Four are looked at a time: a loop
// over single ones waits for each compare, and a line of the cache holds two records.
fn does_stand(book: &[u8], i: usize) -> bool
    requires there { i < length book.now / 32 }
    ensures stands { result ≡ stands_among (line i book.now) (lines i book.now) }
{
    let key = read_key(bytes::take_line(book, i));
    let fours = i - i % 4;
    for j in (0..fours).step_by(4) {
        if is_one_of_four(book, j, key) {
            return true;
        }
    }
    is_one_of(book, fours, i, key)
}

// Whether one of the four records from j on has this key.
fn is_one_of_four(book: &[u8], j: usize, key: u64) -> bool
    requires there { j + 4 ≤ length book.now / 32 }
    ensures one { (l : List ℕ) → Keyed l key → result ≡ stands_in l j 4 book.now }
{
    let a = has_key(book, j, key);
    let b = has_key(book, j + 1, key);
    let c = has_key(book, j + 2, key);
    let d = has_key(book, j + 3, key);
    a | b | c | d
}

// Whether one of the records from `from` up to `to` has it: what is left where no four are.
fn is_one_of(book: &[u8], from: usize, to: usize, key: u64) -> bool
    requires there { to ≤ length book.now / 32 }
    ensures one { (l : List ℕ) → Keyed l key → result ≡ stands_in l from (to - from) book.now }
{
    (from..to).any(|j| has_key(book, j, key))
}

fn has_key(book: &[u8], j: usize, key: u64) -> bool
    requires there { j < length book.now / 32 }
    ensures has { (l : List ℕ) → Keyed l key → result ≡ stands_in l j 1 book.now }
{
    read_key(bytes::take_line(book, j)) == key
}

fn read_key(l: &Line) -> u64
    ensures key { Keyed l.now result }
{
    read_start(l) & MASK
}

// The first eight bytes. They are read by fields, which the mask's proof tells apart, and compile to one
// load.
fn read_start(l: &Line) -> u64
    ensures start { Start l.now result }
{
    let kind = bytes::widen(l[0]);
    let flags = bytes::widen(l[1]);
    let unit = bytes::read_word(l, 2, 2);
    let fuel = bytes::read_word(l, 4, 2);
    let period = bytes::read_word(l, 6, 2);
    kind + 256 * flags + 65536 * unit + 4294967296 * fuel + 281474976710656 * period
}
