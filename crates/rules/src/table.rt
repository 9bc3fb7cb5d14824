// Which hours and months stand in records already: a row of words for each unit line, with a bit for each
// hour of a year, and then for each month. By one look a record is then told to be a repeat or not, however many stand before it.
ghost use Rattle.std.specs.Prelude.{◌≡◌, ◌+◌, ◌*◌, ◌/◌, ◌<◌, ◌≤◌, true, length};
ghost use Rattle.rules.specs.Bytes.{lines, lines_in};
ghost use Rattle.rules.specs.Fields.{unit_number};
ghost use Rattle.rules.specs.Book.{unit_lines, opened, accepted};
ghost use Rattle.rules.specs.Place.{place};
ghost use Rattle.rules.specs.Listing.{Rising};
ghost use Rattle.rules.specs.Table as spec;
ghost use Rattle.rules.specs.Marks as marks;

use crate::book::Head;
use crate::bytes::Line;
use crate::{bytes, field, listing};

// How many words a row has: 138 × 64 bits for 8,784 hours and 12 months.
pub const ROW: usize = 138;

// How many words a table has that serves any book, whose unit lines are at most 64.
pub const WIDE: usize = 8832;

// Whether a table has a row for each unit line. No words at all are no table.
pub(crate) fn is_table(units: &[u8], table: &[u64]) -> bool
    requires few { length units.now / 32 ≤ 64 }
    ensures table { result ≡ spec.is_table units.now table.now }
{
    (1 <= table.len()) & (ROW * (units.len() / 32) <= table.len())
}

// Whether a table serves a book that was opened.
pub fn does_serve(book: &[u8], h: Head, table: &[u64]) -> bool
    requires opened { opened book.now ≡ accepted h }
    ensures table { result ≡ spec.is_table (unit_lines h book.now) table.now }
{
    is_table(h.unit_lines(book), table)
}

// Notes the first n records of a book that was opened. Any bytes serve as hints.
pub fn note_records(book: &[u8], h: Head, n: usize, hints: &[u8], table: &mut [u64])
    requires opened { opened book.now ≡ accepted h }
    requires there { n ≤ h.n }
    requires table { spec.is_table (unit_lines h book.now) table.old ≡ true }
    ensures noted { table.new ≡ spec.noted_all (lines n book.now) (unit_lines h book.now) table.old }
{
    note_lines(book, n, h.unit_lines(book), hints, table);
}

fn note_lines(book: &[u8], n: usize, units: &[u8], hints: &[u8], table: &mut [u64])
    requires there { n ≤ length book.now / 32 }
    requires rising { Rising units.now }
    requires table { spec.is_table units.now table.old ≡ true }
    ensures noted { table.new ≡ spec.noted_all (lines n book.now) units.now table.old }
{
    for l in &bytes::take_lines(book)[..n] {
        note_line(l, units, hints, table);
    }
}

fn note_line(l: &Line, units: &[u8], hints: &[u8], table: &mut [u64])
    requires rising { Rising units.now }
    requires table { spec.is_table units.now table.old ≡ true }
    ensures noted { table.new ≡ spec.noted l.now units.now table.old }
{
    // Most records of some books can't be repeats, and need no unit.
    if !has_bit(field::kind(l), field::period(l)) {
        return;
    }
    let unit = listing::find(units, hints, field::unit_number(l));
    let _was = note(l, units, unit, table);
}

// Notes the unit and period of the record l, the unit's place being found, and tells whether they were
// noted before.
pub(crate) fn note(l: &Line, units: &[u8], unit: Option<usize>, table: &mut [u64]) -> bool
    requires found { unit ≡ place (unit_number l.now) 0 (lines_in units.now) }
    requires table { spec.is_table units.now table.old ≡ true }
    ensures was { result ≡ marks.was_noted l.now units.now table.old }
    ensures noted { table.new ≡ spec.noted l.now units.now table.old }
{
    let kind = field::kind(l);
    let period = field::period(l);
    if !has_bit(kind, period) {
        return false;
    }
    let Some(j) = unit else {
        return false;
    };
    let bit = find_bit(kind, period);
    let was = is_marked(table, j, bit);
    mark(table, j, bit);
    was
}

// The same of any words: what is no table tells nothing, and is left alone.
pub(crate) fn ask(l: &Line, units: &[u8], unit: Option<usize>, table: &mut [u64]) -> bool
    requires few { length units.now / 32 ≤ 64 }
    requires found { unit ≡ place (unit_number l.now) 0 (lines_in units.now) }
    ensures told { result ≡ marks.told l.now units.now table.old }
    ensures noted { table.new ≡ spec.noting l.now units.now table.old }
{
    if !is_table(units, table) {
        return false;
    }
    note(l, units, unit, table)
}

fn has_bit(kind: u8, period: u64) -> bool
    ensures bit { result ≡ spec.has_bit kind period }
{
    let last = find_last_period(kind);
    (1 <= period) & (period <= last)
}

fn find_last_period(kind: u8) -> u64
    ensures last { result ≡ spec.last_period kind }
{
    if kind == 2 {
        return 8784;
    }
    if kind == 4 {
        return 12;
    }
    0
}

// A month's bit comes after those of the hours.
fn find_bit(kind: u8, period: u64) -> usize
    requires has { spec.has_bit kind period ≡ true }
    ensures bit { result ≡ spec.bit_of kind period }
{
    if kind == 4 {
        return (8784 + period - 1) as usize;
    }
    (period - 1) as usize
}

// Whether a bit of row j is set.
pub(crate) fn is_marked(table: &[u64], j: usize, bit: usize) -> bool
    requires there { 138 * j + bit / 64 < length table.now }
    ensures marked { result ≡ marks.marked table.now j bit }
{
    (table[ROW * j + bit / 64] >> (bit % 64)) & 1 == 1
}

pub(crate) fn mark(table: &mut [u64], j: usize, bit: usize)
    requires there { 138 * j + bit / 64 < length table.old }
    ensures marked { table.new ≡ spec.with_mark table.old j bit }
{
    let word = ROW * j + bit / 64;
    table[word] = table[word] | (1u64 << (bit % 64));
}
