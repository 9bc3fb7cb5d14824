// Records looked at one by one, of any bytes: a book that is unsound is told as such.
ghost use Rattle.std.specs.Prelude.{◌≡◌};
ghost use Rattle.rules.specs.Reader.{numbered, sight_at, sight, kind_at, left_from, place_after, advanced};
ghost use Rattle.rules.specs.Table.{noting_at, KnownAt};

use crate::book::Fault;
use crate::entry::Entry;
use crate::record::Outcome;
use crate::{book, bytes, field, record};

// What becomes of a record, a reason being told by its number.
pub type Shown = Result<Entry, u8>;

// What is seen of a record: what becomes of it, or that the book has no such record, or why the bytes are no book.
pub type Seen = Result<Option<Shown>, Fault>;

// A book and the place of the next record in it.
#[derive(Drop)]
pub struct Reader<'a> {
    pub book: &'a [u8],
    pub next: usize,
}

// One step through the records of a book, from one place to the next.
#[derive(Clone, Copy)]
pub struct Step {
    // What is seen at the place.
    pub seen: Seen,
    // The kind of the record there, whatever becomes of it; 0 where there is none.
    pub kind: u8,
    // The place after it.
    pub next: usize,
    // How many records are left from there on.
    pub left: usize,
}

// Where a step leads: the place after it, and how many records are left from there on.
#[derive(Clone, Copy)]
struct Onward {
    next: usize,
    left: usize,
}

// Record i of a book.
pub fn look(book: &[u8], i: usize) -> Seen
    ensures shown { sight result ≡ sight_at book.now i }
{
    let h = book::open(book)?;
    if i < h.n {
        return Ok(Some(number(record::judge(book, h, i))));
    }
    Ok(None)
}

// The same by a table of the records before, to which this one is added.
fn look_noted(book: &[u8], i: usize, table: &mut [u64]) -> Seen
    requires known { KnownAt book.now i table.old }
    ensures shown { sight result ≡ sight_at book.now i }
    ensures noted { table.new ≡ noting_at book.now i table.old }
{
    let h = book::open(book)?;
    if i < h.n {
        return Ok(Some(number(record::judge_next(book, h, i, book, book, table))));
    }
    Ok(None)
}

#[tactic(auto, unfolding(crate::specs::Reader::numbered))]
fn number(o: Outcome) -> Shown
    ensures numbered { result ≡ numbered o }
{
    match o {
        Ok(e) => Ok(e),
        Err(reason) => Err(record::number_reason(reason)),
    }
}

fn find_kind(book: &[u8], i: usize) -> u8
    ensures kind { result ≡ kind_at book.now i }
{
    if i < book.len() / 32 {
        return field::kind(bytes::take_line(book, i));
    }
    0
}

// How many records there are from place i on; none of a book that is refused.
pub(crate) fn count_from(book: &[u8], i: usize) -> usize
    ensures left { result ≡ left_from book.now i }
{
    match book::open(book) {
        Err(_) => 0,
        Ok(h) => h.n.saturating_sub(i),
    }
}

// The place after i. From the book's length on, past any record, it stays where it is.
pub(crate) fn step_from(book: &[u8], i: usize) -> usize
    ensures after { result ≡ place_after book.now i }
{
    if i < book.len() {
        return i + 1;
    }
    i
}

// What is seen of the next record.
pub fn look_next<'a>(r: Reader<'a>) -> Seen
    ensures shown { sight result ≡ sight_at r.entry.book.now r.entry.next }
{
    look(r.book, r.next)
}

// How many records are left.
pub fn count_left<'a>(r: Reader<'a>) -> usize
    ensures left { result ≡ left_from r.entry.book.now r.entry.next }
{
    count_from(r.book, r.next)
}

// The reader at the record after the next.
pub fn advance<'a>(r: Reader<'a>) -> Reader<'a>
    ensures moved { result ≡ advanced r.entry }
{
    let next = step_from(r.book, r.next);
    Reader { book: r.book, next }
}

// The step at a place, by a table of the records before, to which the record is added. A blank table
// serves at place 0, so that a book takes one pass.
pub fn take_step(book: &[u8], at: usize, table: &mut [u64]) -> Step
    requires known { KnownAt book.now at table.old }
    ensures shown { sight result.seen ≡ sight_at book.now at }
    ensures kind { result.kind ≡ kind_at book.now at }
    ensures after { result.next ≡ place_after book.now at }
    ensures left { result.left ≡ left_from book.now result.next }
    ensures noted { table.new ≡ noting_at book.now at table.old }
{
    let seen = look_noted(book, at, table);
    let kind = find_kind(book, at);
    let onward = go_past(book, at);
    Step {
        seen,
        kind,
        next: onward.next,
        left: onward.left,
    }
}

// Where a reader leads from a place.
fn go_past(book: &[u8], at: usize) -> Onward
    ensures after { result.next ≡ place_after book.now at }
    ensures left { result.left ≡ left_from book.now result.next }
{
    let r = Reader { book, next: at };
    let after = advance(r);
    Onward {
        next: after.next,
        left: count_left(after),
    }
}
