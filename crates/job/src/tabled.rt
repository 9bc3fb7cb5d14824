// The way through the records by a table of those before, in which an hour, or anodes, that would count is looked for.
ghost use Rattle.std.specs.Prelude.{true, false, ◌≡◌, ◌-◌, ◌≤◌, length, replicate};
ghost use Rattle.rules.specs.Book.{unit_lines, opened, accepted};
ghost use Rattle.rules.specs.Table.{is_table};
ghost use Rattle.job.specs.State.{run};
ghost use Rattle.job.specs.Checkpoint.{checkpoint_size, done_in, decode, encode};
ghost use Rattle.job.specs.Wake.{admitted_for};
ghost use Rattle.job.specs.Words.{counts_at, Gone};
ghost use Rattle.job.specs.Leg.{Before, Went};

use crate::counts::Aside;
use crate::{checkpoint, unfuelled, way};
use rules::book::Head;
use rules::{hints, table};

// The words of a table for at most 8 unit lines, and for at most 16, and the bytes of these. A table is
// cleared whole, so that a book of few records should have no larger one than it needs.
const NARROW: usize = 1104;

const NARROW_LINES: usize = 256;

const MIDDLE: usize = 2208;

const MIDDLE_LINES: usize = 512;

// Writes the checkpoint at place `until`, where records are gone through up to `place`. It is called from two places and
// writes by itself: so the compiler leaves its frame, which holds the tables, out of a wake that needs none.
pub(crate) fn go_by_table(
    book: &[u8],
    h: Head,
    place: u32,
    until: u32,
    aside: &mut Aside,
    w: &mut [u64],
    from: &[u8],
    out: &mut [u8],
)
    requires opened { opened book.now ≡ accepted h }
    requires gone { Gone h book.now from.now (counts_at place aside.old) w.old }
    requires on { (place ≤ until) × (until ≤ h.n) }
    requires whole { (admitted_for h from.now ≡ accepted h) × (length out.old ≡ checkpoint_size) }
    ensures written { out.new ≡ encode h (run h book.now (decode from.now) (until - done_in from.now)) }
{
    let lines = h.fuels - h.units;
    if lines <= NARROW_LINES {
        let mut table = [0u64; NARROW];
        return go_noting(book, h, place, until, &mut table, aside, w, from, out);
    }
    if lines <= MIDDLE_LINES {
        let mut table = [0u64; MIDDLE];
        return go_noting(book, h, place, until, &mut table, aside, w, from, out);
    }
    let mut table = [0u64; table::WIDE];
    go_noting(book, h, place, until, &mut table, aside, w, from, out)
}

// The same by a table that is blank.
fn go_noting(
    book: &[u8],
    h: Head,
    place: u32,
    until: u32,
    table: &mut [u64],
    aside: &mut Aside,
    w: &mut [u64],
    from: &[u8],
    out: &mut [u8],
)
    requires opened { opened book.now ≡ accepted h }
    requires gone { Gone h book.now from.now (counts_at place aside.old) w.old }
    requires on { (place ≤ until) × (until ≤ h.n) }
    requires whole { (admitted_for h from.now ≡ accepted h) × (length out.old ≡ checkpoint_size) }
    requires blank { (is_table (unit_lines h book.now) table.old ≡ true) × (table.old ≡ replicate (length table.old) 0) }
    ensures written { out.new ≡ encode h (run h book.now (decode from.now) (until - done_in from.now)) }
{
    let mut units = [0u8; hints::COUNT];
    hints::note_units(book, h, &mut units);
    table::note_records(book, h, place as usize, &units, table);
    let end = go_known(book, h, place, until, table, aside, w);
    checkpoint::write(h, end, aside, from, w, out)
}

// The records up to place `until`, by a table of those before: where they end, and what they give.
fn go_known(
    book: &[u8],
    h: Head,
    place: u32,
    until: u32,
    table: &mut [u64],
    aside: &mut Aside,
    w: &mut [u64],
) -> u32
    requires opened { opened book.now ≡ accepted h }
    requires before { Before h book.now place until aside.old w.old table.old }
    requires table { is_table (unit_lines h book.now) table.old ≡ true }
    ensures went { Went h book.now place until false aside.old w.old result aside.new w.new }
{
    if unfuelled::has_no_fuel(h) {
        return unfuelled::go_unfuelled(book, h, place, until, table, aside, w);
    }
    way::go_legs(book, h, place, until, table, false, aside, w)
}
