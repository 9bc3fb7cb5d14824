// A leg of the way through the records of a book: most are taken at one go, by an index of the book's lines, and the few
// others are judged by these. What fuel gives is kept in shares, which go to the ledgers' words where the leg ends.
ghost use Rattle.std.specs.Prelude.{◌≡◌, ℕ, ◌+◌, ◌-◌, ◌*◌, ◌<◌, ◌≤◌, slice_index, Err};
ghost use Rattle.rules.specs.Bytes.{line, lines};
ghost use Rattle.rules.specs.Book.{unit_lines, fuel_lines, opened, accepted};
ghost use Rattle.rules.specs.Index.{UnitsNoted, FuelsNoted, Small};
ghost use Rattle.rules.specs.Sorting.{heat_limits};
ghost use Rattle.rules.specs.Table.{noting, Known};
ghost use Rattle.job.specs.State.{counted};
ghost use Rattle.job.specs.State as state;
ghost use Rattle.job.specs.Bounds.{CountsFit};
ghost use Rattle.job.specs.Words.{carries, carries_each, mass_at, counts_at, Kept};
ghost use Rattle.job.specs.Shares.{leg_records, shares_at, Held};
ghost use Rattle.job.specs.Leg.{Before, Went, taken_sorted, RoomFor, Co2For, shared_by, added_by, taken_grained, LightFor, grained_by, AsideBy, Took, Taking};

use crate::counts::Aside;
use crate::{ledgers, shares};
use mass::hour;
use rules::book::Head;
use rules::record::Reason;
use rules::sorting::Share;
use rules::weighing::Grained;
use rules::{hints, index, record, sorting, table, weighing};

// How a quick look at a record ends.
#[derive(Clone, Copy)]
enum Taken {
    // The record is gone through.
    Done,
    // It is to be judged by the book's lines.
    Unsure,
    // It may be a repeat, and the way was to stop there.
    Stopped,
}

// The records of a leg, up to place `until`: where they end, and what they give. If it is to stop there, it goes only up
// to the first record that is no fuel.
pub(crate) fn go_on(
    book: &[u8],
    h: Head,
    place: u32,
    until: u32,
    table: &mut [u64],
    stop: bool,
    aside: &mut Aside,
    w: &mut [u64],
) -> u32
    requires opened { opened book.now ≡ accepted h }
    requires before { Before h book.now place until aside.old w.old table.old }
    requires leg { (place < until) × (until ≤ place + leg_records) }
    ensures went { Went h book.now place until stop aside.old w.old result aside.new w.new }
    ensures known { Known (lines result book.now) (unit_lines h book.now) table.new }
{
    let mut units = [index::BLANK; index::UNITS];
    let mut by_unit = [0u8; hints::COUNT];
    index::note_units(book, h, &mut units, &mut by_unit);
    let mut fuels = [index::BLANK; index::FUELS];
    let mut by_fuel = [0u8; hints::COUNT];
    index::note_fuels(book, h, &mut fuels, &mut by_fuel);
    let limits = sorting::HEAT_LIMITS;
    let mut shares = [0u64; 1024];
    for at in place..until {
        let taken = take_quickly(
            book,
            h,
            at,
            &units,
            &by_unit,
            &fuels,
            &by_fuel,
            table,
            stop,
            &mut shares,
            aside,
            w,
            &limits,
        );
        match taken {
            Taken::Done => {}
            Taken::Unsure => take_slowly(book, h, at, book, book, table, aside, w),
            Taken::Stopped => {
                end_leg(book, h, place, at, &shares, w);
                return at;
            }
        }
    }
    end_leg(book, h, place, until, &shares, w);
    until
}

// Where records from `place` on end that are to come to `until`, and are so many at most.
pub(crate) fn find_end(place: u32, until: u32, most: u32) -> u32
    requires on { place ≤ until }
    ensures end { (place ≤ result) × (result ≤ until) × (result ≤ place + most) × (place < until → 0 < most → place < result) }
{
    if until - place <= most {
        return until;
    }
    place + most
}

// The shares of a leg from `place` to `at` go to the ledgers' words.
fn end_leg(book: &[u8], h: Head, place: u32, at: u32, shares: &[u64; 1024], w: &mut [u64])
    requires opened { opened book.now ≡ accepted h }
    requires on { (place ≤ at) × (at ≤ h.n) × (at ≤ place + leg_records) }
    requires held { Held (at - place) shares.now }
    requires kept { Kept (carries_each * place + 3 * (at - place)) w.old }
    ensures settled { (i : ℕ) → i < state.ledgers → mass_at w.new i ≡ mass_at w.old i + shares_at (fuel_lines h book.now) shares.now i }
    ensures kept { Kept (carries_each * at) w.new }
{
    // A leg of no records may come after many, and is not to raise high digits.
    if place < at {
        shares::settle(book, h, shares, w);
    }
}

// A look at the next record, by an index of the book's lines and a table of the records before.
fn take_quickly(
    book: &[u8],
    h: Head,
    place: u32,
    units: &[u32; 256],
    by_unit: &[u8; 1024],
    fuels: &[u32; 320],
    by_fuel: &[u8; 1024],
    table: &mut [u64],
    stop: bool,
    shares: &mut [u64; 1024],
    aside: &mut Aside,
    w: &mut [u64],
    limits: &[u32; 8],
) -> Taken
    requires opened { opened book.now ≡ accepted h }
    requires there { (place < h.n) × CountsFit h (counts_at place aside.old) }
    requires units { UnitsNoted (unit_lines h book.now) units.now × Small by_unit.now }
    requires fuels { FuelsNoted (fuel_lines h book.now) fuels.now × Small by_fuel.now × (limits.now ≡ heat_limits) }
    requires known { Known (lines place book.now) (unit_lines h book.now) table.old }
    requires room { Held (leg_records - 1) shares.old × Kept carries w.old }
    ensures taking { Taking h book.now place stop aside.old w.old shares.old table.old result aside.new w.new shares.new table.new }
{
    let i = place as usize;
    let kind = record::find_kind(book, h, i);
    if kind == 1 {
        let sorted = sorting::sort_fuel(book, h, i, units, by_unit, fuels, by_fuel, limits);
        return take_fuel(sorted, shares);
    }
    if kind == 3 {
        let sorted = sorting::sort_gas(book, h, i, units, by_unit, fuels, by_fuel, limits);
        return take_gas(sorted, shares, w);
    }
    if stop {
        return Taken::Stopped;
    }
    if !table::does_serve(book, h, table) {
        return Taken::Unsure;
    }
    if kind == 2 {
        let grained = weighing::grain_hour(book, h, i, units, by_unit, table);
        return take_grained(place, grained, hour::UG_PER_THOUSANDTH, aside, w);
    }
    if kind == 4 {
        let grained = weighing::grain_anodes(book, h, i, units, by_unit, table);
        return take_grained(place, grained, 1, aside, w);
    }
    Taken::Unsure
}

// What was sorted goes to the shares.
fn take_fuel(sorted: Option<Share>, shares: &mut [u64; 1024]) -> Taken
    requires room { RoomFor sorted shares.old }
    ensures taken { result ≡ taken_sorted sorted }
    ensures shared { shares.new ≡ shared_by sorted shares.old }
{
    let Some(x) = sorted else {
        return Taken::Unsure;
    };
    shares::add(shares, x);
    Taken::Done
}

// The same of analysed gas, whose CO2 is worked out by itself.
fn take_gas(sorted: Option<Share>, shares: &mut [u64; 1024], w: &mut [u64]) -> Taken
    requires room { RoomFor sorted shares.old × Kept carries w.old × Co2For sorted }
    ensures taken { result ≡ taken_sorted sorted }
    ensures shared { (shares.new ≡ shared_by sorted shares.old) × (w.new ≡ added_by sorted w.old) }
{
    let Some(x) = sorted else {
        return Taken::Unsure;
    };
    shares::add(shares, x);
    ledgers::add(w, ledgers::FOSSIL, x.co2.0);
    Taken::Done
}

// A repeat is set aside, and what counts goes to the fossil ledger: so many grains of `worth` µg.
fn take_grained(place: u32, grained: Grained, worth: u64, aside: &mut Aside, w: &mut [u64]) -> Taken
    requires room { (aside.old.count < 4294967295) × Kept carries w.old × LightFor worth grained }
    ensures taken { result ≡ taken_grained grained }
    ensures words { (w.new ≡ grained_by worth grained w.old) × AsideBy place grained aside.old aside.new }
{
    match grained {
        Grained::Unsure => Taken::Unsure,
        Grained::Repeated => {
            set_aside(aside, place, Reason::Repeated);
            Taken::Done
        }
        Grained::Fossil(x) => {
            ledgers::add(w, ledgers::FOSSIL, worth * x.0);
            Taken::Done
        }
    }
}

// The next record, judged by the book's lines.
pub(crate) fn take_slowly(
    book: &[u8],
    h: Head,
    place: u32,
    by_unit: &[u8],
    by_fuel: &[u8],
    table: &mut [u64],
    aside: &mut Aside,
    w: &mut [u64],
)
    requires opened { opened book.now ≡ accepted h }
    requires there { (place < h.n) × CountsFit h (counts_at place aside.old) }
    requires known { Known (lines place book.now) (unit_lines h book.now) table.old }
    requires room { Kept carries w.old }
    ensures took { Took h book.now place aside.old w.old aside.new w.new }
    ensures noted { table.new ≡ noting (line place book.now) (unit_lines h book.now) table.old }
{
    let judged = record::judge_next(book, h, place as usize, by_unit, by_fuel, table);
    match judged {
        Err(reason) => set_aside(aside, place, reason),
        Ok(e) => ledgers::give(w, e),
    }
}

// One record more is set aside, that at this place. Only the first such is told by its index and its reason.
pub(crate) fn set_aside(aside: &mut Aside, place: u32, reason: Reason)
    requires room { aside.old.count < 4294967295 }
    ensures counted { counts_at (place + 1) aside.new ≡ counted (counts_at place aside.old) (Err reason) }
{
    if aside.count == 0 {
        aside.index = place;
        aside.reason = record::number_reason(reason);
    }
    aside.count += 1;
}
