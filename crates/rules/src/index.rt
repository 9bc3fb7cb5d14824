// An index of a book's unit lines and fuel lines: what many records ask of these is read once. A column of
// it has an entry for each line, and a hint says in which line a number may stand, by its last ten bits. As a
// look-up holds the number of that line against the one that it wants, a wrong hint costs time alone.
ghost use Rattle.std.specs.Prelude.{◌≡◌, ◌<◌, ◌≤◌, length, replicate, ◌==◌, slice_index};
ghost use Rattle.rules.specs.Book.{unit_lines, fuel_lines, opened, accepted};
ghost use Rattle.rules.specs.Index.{no_number, column_of, way_of, moist_below, large_flags, allowed_flags, volume_of, UnitsNoted, FuelsNoted, Small};
ghost use Rattle.rules.specs.Listing.{Rising};

use crate::book::Head;
use crate::bytes::Line;
use crate::{bytes, listed, method, range};

// How many entries the columns of units have together, and those of fuels.
pub const UNITS: usize = 256;

pub const FUELS: usize = 320;

// The number of no line.
pub const BLANK: u32 = 65536;

// Where the columns start, that of the numbers aside, which is the first.
pub(crate) const COLUMNS: usize = 64;

pub(crate) const WAYS: usize = 128;

pub(crate) const MOIST: usize = 192;

pub(crate) const LARGE: usize = 64;

pub(crate) const ALLOWED: usize = 128;

pub(crate) const CARBON: usize = 192;

pub(crate) const VOLUMES: usize = 256;

// Notes the unit lines of a book that was opened.
pub fn note_units(book: &[u8], h: Head, units: &mut [u32; 256], hints: &mut [u8; 1024])
    requires opened { opened book.now ≡ accepted h }
    requires blank { (units.old ≡ replicate 256 no_number) × (hints.old ≡ replicate 1024 0) }
    ensures noted { UnitsNoted (unit_lines h book.now) units.new × Small hints.new }
{
    note_unit_lines(h.unit_lines(book), units, hints);
}

fn note_unit_lines(s: &[u8], units: &mut [u32; 256], hints: &mut [u8; 1024])
    requires rising { Rising s.now }
    requires blank { (units.old ≡ replicate 256 no_number) × (hints.old ≡ replicate 1024 0) }
    ensures noted { UnitsNoted s.now units.new × Small hints.new }
{
    for (j, u) in bytes::take_lines(s).iter().enumerate() {
        let number = listed::number(u);
        hints[(number % 1024) as usize] = j as u8;
        units[j] = number as u32;
        units[COLUMNS + j] = find_column(u);
        units[WAYS + j] = find_way(u);
        units[MOIST + j] = find_moist(u);
    }
}

// The column of a fuel's flags that counts in the unit: that of all where some method is permitted with any of them, or
// that of a large unit without a monitor.
fn find_column(u: &Line) -> u32
    ensures column { result ≡ column_of u.now }
{
    if listed::is_monitored(u) {
        return ALLOWED as u32;
    }
    if listed::rating(u) <= method::SMALL_RATING {
        return ALLOWED as u32;
    }
    LARGE as u32
}

// 4 where the CO2 of fuel isn't counted.
fn find_way(u: &Line) -> u32
    ensures way { result ≡ way_of u.now }
{
    if listed::is_monitored(u) {
        return 4;
    }
    0
}

// What the moisture of an hour stays below; 0 where there are no hours.
fn find_moist(u: &Line) -> u32
    ensures below { result ≡ moist_below u.now }
{
    if !listed::is_monitored(u) {
        return 0;
    }
    if listed::is_dry(u) {
        return 1001;
    }
    1
}

// The same for its fuel lines.
pub fn note_fuels(book: &[u8], h: Head, fuels: &mut [u32; 320], hints: &mut [u8; 1024])
    requires opened { opened book.now ≡ accepted h }
    requires blank { (fuels.old ≡ replicate 320 no_number) × (hints.old ≡ replicate 1024 0) }
    ensures noted { FuelsNoted (fuel_lines h book.now) fuels.new × Small hints.new }
{
    note_fuel_lines(h.fuel_lines(book), fuels, hints);
}

fn note_fuel_lines(s: &[u8], fuels: &mut [u32; 320], hints: &mut [u8; 1024])
    requires rising { Rising s.now }
    requires blank { (fuels.old ≡ replicate 320 no_number) × (hints.old ≡ replicate 1024 0) }
    ensures noted { FuelsNoted s.now fuels.new × Small hints.new }
{
    for (j, f) in bytes::take_lines(s).iter().enumerate() {
        let number = listed::number(f);
        hints[(number % 1024) as usize] = j as u8;
        fuels[j] = number as u32;
        fuels[LARGE + j] = find_large(f);
        fuels[ALLOWED + j] = find_allowed(f);
        fuels[CARBON + j] = range::find_carbon_limit(f);
        fuels[VOLUMES + j] = find_volume(f);
    }
}

// A bit for each of eight flags: whether a record of the fuel with these has a heat in use and, in a large unit without a
// monitor, a method. There the carbon is measured, or the heat of natural gas or of distillate oil.
fn find_large(f: &Line) -> u32
    ensures large { result ≡ large_flags f.now }
{
    let class = listed::fuel_class(f);
    if (class == 1) | (class == 2) {
        return find_allowed(f) & 0xee;
    }
    find_allowed(f) & 0xcc
}

// The same of flags with which there is a heat in use: a measured one, the fuel's default, or the low value of
// natural gas, which is a measured one.
fn find_allowed(f: &Line) -> u32
    ensures allowed { result ≡ allowed_flags f.now }
{
    let mut flags = 0x0a;
    if 0 < listed::default_heat(f) {
        flags = flags + 0x05;
    }
    if listed::fuel_class(f) == 1 {
        flags = flags + 0xa0;
    }
    flags
}

// The molar volume of a gas, 0 of other fuel.
fn find_volume(f: &Line) -> u32
    ensures volume { result ≡ volume_of f.now }
{
    if listed::fuel_kind(f) == 3 {
        return listed::molar_volume(f);
    }
    0
}

// The place that the hint of a number names, and whether the line there has the number.
pub(crate) fn look_up(number: u64, numbers: &[u32], hints: &[u8; 1024]) -> (usize, bool)
    requires room { 64 ≤ length numbers.now }
    requires small { Small hints.now }
    ensures few { result.0 < 64 }
    ensures right { result.1 ≡ (slice_index numbers.now result.0 == number) }
{
    let place = hints[(number % 1024) as usize] as usize;
    (place, numbers[place] as u64 == number)
}
