// A book, opened or refused.
ghost use Rattle.std.specs.Prelude.{◌≡◌, ◌≤◌, true, length};
ghost use Rattle.rules.specs.Book.{length_ok, starts_ok, trailer_ok, unit_ok, fuel_ok, lines_sound, unit_lines, fuel_lines, opened, accepted, fault_number, answer};
ghost use Rattle.rules.specs.Listing.{Rising};

use crate::bytes::Line;
use crate::listing::Sort;
use crate::{bytes, listing, trailer};

// What is known of a book that was opened.
#[derive(Clone, Copy)]
pub struct Head {
    // How many records it has.
    pub n: usize,
    // The bytes at which its unit lines and its fuel lines start.
    pub units: usize,
    pub fuels: usize,
    pub year: u64,
    // How many bytes it has.
    pub length: usize,
    // The set of warming values that its trailer names: 0 the first, 1 the second.
    pub warming: u8,
}

impl Head {
    // The unit lines of the book.
    pub(crate) fn unit_lines(self, book: &[u8]) -> &[u8]
        requires opened { opened book.now ≡ accepted self }
        ensures lines { result.now ≡ unit_lines self book.now }
        ensures sound { lines_sound unit_ok result.now ≡ true }
        ensures rising { Rising result.now }
    {
        &book[self.units..self.fuels]
    }

    // Its fuel lines.
    pub(crate) fn fuel_lines(self, book: &[u8]) -> &[u8]
        requires opened { opened book.now ≡ accepted self }
        ensures lines { result.now ≡ fuel_lines self book.now }
        ensures sound { lines_sound fuel_ok result.now ≡ true }
        ensures rising { Rising result.now }
    {
        &book[self.fuels..self.length - 32]
    }
}

// The first rule that the bytes of a book break.
#[derive(Clone, Copy)]
pub enum Fault {
    // 20: the length isn't a multiple of 32, or out of its range.
    Length,
    // 21: the trailer breaks a rule.
    Trailer,
    // 22: a unit line breaks a rule, or there are over 64.
    Units,
    // 23: a fuel line breaks a rule, or there are over 64.
    Fuels,
}

// The number of a fault.
pub fn number_fault(x: Fault) -> u8
    ensures number { result ≡ fault_number x }
{
    match x {
        Fault::Length => 20,
        Fault::Trailer => 21,
        Fault::Units => 22,
        Fault::Fuels => 23,
    }
}

// The most bytes that a book has.
pub const LONGEST_BOOK: usize = 4194304;

// The head of a sound book, or the first rule that the bytes break.
pub fn open(s: &[u8]) -> Result<Head, Fault>
    ensures answered { answer result ≡ opened s.now }
{
    if !is_length_right(s) {
        return Err(Fault::Length);
    }
    let length = s.len();
    let end = length - 32;
    let t = bytes::take_line(s, end / 32);
    if !is_trailer_right(t, end) {
        return Err(Fault::Trailer);
    }
    let units = trailer::unit_start(t);
    let fuels = trailer::fuel_start(t);
    if !listing::are_sound(&s[units..fuels], Sort::Unit) {
        return Err(Fault::Units);
    }
    if !listing::are_sound(&s[fuels..end], Sort::Fuel) {
        return Err(Fault::Fuels);
    }
    let n = units / 32;
    let year = trailer::year(t);
    let warming = trailer::warming_set(t);
    Ok(Head {
        n,
        units,
        fuels,
        year,
        length,
        warming,
    })
}

fn is_length_right(s: &[u8]) -> bool
    ensures length { result ≡ length_ok s.now }
{
    let n = s.len();
    (32 <= n) & (n <= LONGEST_BOOK) & (n % 32 == 0)
}

fn is_trailer_right(t: &Line, e: usize) -> bool
    ensures trailer { result ≡ trailer_ok t.now e }
{
    let signed = trailer::is_signed(t);
    let version_right = trailer::is_version_right(t);
    let starts_right = are_starts_right(trailer::unit_start(t), trailer::fuel_start(t), e);
    let year_right = trailer::is_year_right(t);
    let set_right = trailer::is_set_right(t);
    signed & version_right & starts_right & year_right & set_right
}

fn are_starts_right(u: usize, f: usize, e: usize) -> bool
    ensures starts { result ≡ starts_ok u f e }
{
    (u % 32 == 0) & (f % 32 == 0) & (u <= f) & (f <= e)
}
