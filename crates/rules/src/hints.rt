// Where the line with a number may stand, by the last ten bits of the number. A look-up holds a hint
// against the line: a wrong one would cost a search and change no result. So the hints are written where
// the caller keeps them, whatever stood there.
ghost use Rattle.std.specs.Prelude.{◌≡◌, ◌/◌, ◌≤◌, length};
ghost use Rattle.rules.specs.Book.{opened, accepted, unit_lines, fuel_lines};
ghost use Rattle.rules.specs.Hints.{hints_in};

use crate::book::Head;
use crate::{bytes, listed};

// How many hints there are. By fewer bits than ten, several of 64 lines would often share one.
pub const COUNT: usize = 1024;

// Writes the hints of a book that was opened, for its unit lines.
pub fn note_units(book: &[u8], h: Head, hints: &mut [u8])
    requires opened { opened book.now ≡ accepted h }
    requires room { 1024 ≤ length hints.old }
    ensures noted { hints.new ≡ hints_in (unit_lines h book.now) hints.old }
{
    note(h.unit_lines(book), hints);
}

// The same for its fuel lines.
pub fn note_fuels(book: &[u8], h: Head, hints: &mut [u8])
    requires opened { opened book.now ≡ accepted h }
    requires room { 1024 ≤ length hints.old }
    ensures noted { hints.new ≡ hints_in (fuel_lines h book.now) hints.old }
{
    note(h.fuel_lines(book), hints);
}

fn note(s: &[u8], places: &mut [u8])
    requires few { length s.now / 32 ≤ 256 }
    requires room { 1024 ≤ length places.old }
    ensures noted { places.new ≡ hints_in s.now places.old }
{
    for (i, l) in bytes::take_lines(s).iter().enumerate() {
        let last = (listed::number(l) % 1024) as usize;
        places[last] = i as u8;
    }
}
