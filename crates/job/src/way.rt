// The way through the records from one place to another: few are judged by the book's lines, and many go in legs.
ghost use Rattle.std.specs.Prelude.{false, ◌≡◌, ◌<◌, ◌≤◌};
ghost use Rattle.rules.specs.Book.{opened, accepted};
ghost use Rattle.job.specs.Leg.{Before, Went};

use crate::counts::Aside;
use crate::leg;
use rules::book::Head;
use rules::{hints, record};

// The most records of a leg.
const LEG: u32 = 4096;

// The records up to place `until`: where they end, and what they give. If it is to stop there, it goes only up to the
// first record that is no fuel.
pub(crate) fn go_legs(
    book: &[u8],
    h: Head,
    place: u32,
    until: u32,
    table: &mut [u64],
    stop: bool,
    aside: &mut Aside,
    w: &mut [u64],
) -> u32
    requires opened { opened book.now ≡ accepted h }
    requires before { Before h book.now place until aside.old w.old table.old }
    ensures went { Went h book.now place until stop aside.old w.old result aside.new w.new }
{
    if find_few(h) < until - place {
        return go_many(book, h, place, until, table, stop, aside, w);
    }
    go_few(book, h, place, until, table, stop, aside, w)
}

// Up to two records for each of a book's lines are sooner judged by these than by an index.
fn find_few(h: Head) -> u32
    requires within { (h.units ≤ h.length) × (h.length ≤ 4194304) }
{
    ((h.length - h.units) / 16) as u32
}

// The same of few records, by hints of the book's lines.
fn go_few(
    book: &[u8],
    h: Head,
    place: u32,
    until: u32,
    table: &mut [u64],
    stop: bool,
    aside: &mut Aside,
    w: &mut [u64],
) -> u32
    requires opened { opened book.now ≡ accepted h }
    requires before { Before h book.now place until aside.old w.old table.old }
    ensures went { Went h book.now place until stop aside.old w.old result aside.new w.new }
{
    let mut by_unit = [0u8; hints::COUNT];
    hints::note_units(book, h, &mut by_unit);
    let mut by_fuel = [0u8; hints::COUNT];
    hints::note_fuels(book, h, &mut by_fuel);
    go_slowly(
        book, h, place, until, &by_unit, &by_fuel, table, stop, aside, w,
    )
}

// The same of many records, in legs. It stands by itself: where the two ways were one function, the compiler kept less of a
// leg in registers, and a record took 3 instructions more.
fn go_many(
    book: &[u8],
    h: Head,
    place: u32,
    until: u32,
    table: &mut [u64],
    stop: bool,
    aside: &mut Aside,
    w: &mut [u64],
) -> u32
    requires opened { opened book.now ≡ accepted h }
    requires before { Before h book.now place until aside.old w.old table.old }
    ensures went { Went h book.now place until stop aside.old w.old result aside.new w.new }
{
    let mut at = place;
    while at < until {
        let end = leg::find_end(at, until, LEG);
        at = leg::go_on(book, h, at, end, table, stop, aside, w);
        if at < end {
            return at;
        }
    }
    at
}

// The same as `go_legs` of few records, each judged by the book's lines. Any bytes serve as hints to find these.
pub(crate) fn go_slowly(
    book: &[u8],
    h: Head,
    place: u32,
    until: u32,
    by_unit: &[u8],
    by_fuel: &[u8],
    table: &mut [u64],
    stop: bool,
    aside: &mut Aside,
    w: &mut [u64],
) -> u32
    requires opened { opened book.now ≡ accepted h }
    requires before { Before h book.now place until aside.old w.old table.old }
    ensures went { Went h book.now place until stop aside.old w.old result aside.new w.new }
{
    for at in place..until {
        if stop && record::is_repeatable(book, h, at as usize) {
            return at;
        }
        leg::take_slowly(book, h, at, by_unit, by_fuel, table, aside, w);
    }
    until
}
