// A fuel record sorted at one go, by the index of a book's lines: where all its tests hold it counts, and what it
// adds is told by its fuel and its way, before the factors of the fuel enter. Of any other record it isn't sure,
// which costs time alone: `record` then judges it and tells the reason.
ghost use Rattle.std.specs.Prelude.{◌≡◌, ◌+◌, ◌-◌, ◌*◌, ◌<◌, ◌≤◌, true, length};
ghost use Rattle.rules.specs.Bytes.{line};
ghost use Rattle.rules.specs.Fields.{kind};
ghost use Rattle.rules.specs.Book.{unit_lines, fuel_lines, opened, accepted};
ghost use Rattle.rules.specs.Index.{UnitsNoted, FuelsNoted, Small};
ghost use Rattle.rules.specs.Sorting.{heat_limits, Settled, NoGas};
ghost use Rattle.rules.specs.AtOnce.{form_right, heat_right, carbon_right, gas_right, allowed_by, amount_burned};

use crate::book::Head;
use crate::bytes::Line;
use crate::{bytes, entry, field, index};
use mass::fuel::Amount;
use mass::gas::{CarbonShare, MolarVolume, MolecularWeight};
use mass::{Ug, gas};

// The most heat by the lowest three flags: none where it wasn't measured, and less where it is a low value.
pub const HEAT_LIMITS: [u32; 8] = [0, 200000, 0, 200000, 0, 180000, 0, 180000];

// What a fuel record adds, before the factors of its fuel enter.
#[derive(Clone, Copy)]
pub struct Share {
    // 16 for each fuel line before its own, and 4 if its unit's monitor gives the CO2.
    pub at: usize,
    // 1 if its heat was measured, and 2 if its carbon was.
    pub way: usize,
    // Amount × heat where the heat was measured, and else the amount.
    pub burned: u64,
    // Amount × carbon.
    pub carbon: u64,
    // The CO2 of analysed gas.
    pub co2: Ug,
}

// What record i adds, which is of kind 1. None where it isn't said whether it counts.
pub fn sort_fuel(
    book: &[u8],
    h: Head,
    i: usize,
    units: &[u32; 256],
    by_unit: &[u8; 1024],
    fuels: &[u32; 320],
    by_fuel: &[u8; 1024],
    limits: &[u32; 8],
) -> Option<Share>
    requires opened { opened book.now ≡ accepted h }
    requires there { (i < h.n) × (kind (line i book.now) ≡ 1) }
    requires units { UnitsNoted (unit_lines h book.now) units.now × Small by_unit.now }
    requires fuels { FuelsNoted (fuel_lines h book.now) fuels.now × Small by_fuel.now × (limits.now ≡ heat_limits) }
    ensures settled { Settled h book.now i result }
    ensures alone { NoGas result }
{
    let l = bytes::take_line(book, i);
    let (j, unit_right) = index::look_up(field::unit_number(l), units, by_unit);
    let (k, fuel_right) = index::look_up(field::fuel_number(l), fuels, by_fuel);
    let carbon_right = is_carbon_right(l, fuels[index::CARBON + k]);
    // Where there is no line the entry is 65,536, and any column will do.
    let column = units[index::COLUMNS + j] as usize % 256;
    let allowed = is_allowed(l, fuels[column + k]);
    let heat_right = is_heat_right(l, limits);
    if !(unit_right & fuel_right & is_form_right(l) & heat_right & carbon_right & allowed) {
        return None;
    }
    let carbon = field::amount(l) as u64 * field::carbon(l) as u64;
    Some(Share {
        at: 16 * k + units[index::WAYS + j] as usize,
        way: field::flags(l) as usize % 4,
        burned: find_burned(l),
        carbon,
        co2: Ug(0),
    })
}

fn is_form_right(l: &Line) -> bool
    ensures right { result ≡ form_right l.now }
{
    let flags = field::flags(l);
    let month = field::period(l);
    let amount = field::amount(l);
    (flags <= 7)
        & (1 <= month)
        & (month <= 12)
        & (amount <= 100000000)
        & field::is_fuel_record_blank(l)
}

// The most heat is looked up by the flags, so that no jump hangs on these: of a book's flags a processor foresees half.
fn is_heat_right(l: &Line, limits: &[u32; 8]) -> bool
    requires limits { limits.now ≡ heat_limits }
    ensures right { result ≡ heat_right l.now }
{
    let flags = field::flags(l);
    let heat = field::heat(l);
    (flags as u32 % 2 <= heat) & (heat <= limits[flags as usize % 8])
}

fn is_carbon_right(l: &Line, limit: u32) -> bool
    requires small { limit ≤ 4000000 }
    ensures right { result ≡ carbon_right limit l.now }
{
    let measured = field::flags(l) as u32 / 2 % 2;
    let carbon = field::carbon(l);
    carbon <= limit * measured
}

// Whether a method is permitted and there is a heat in use, by a bit for each of eight flags.
fn is_allowed(l: &Line, allowed: u32) -> bool
    ensures allowed { result ≡ allowed_by l.now allowed }
{
    let flags = field::flags(l) as u32 % 32;
    (allowed >> flags) % 2 == 1
}

fn find_burned(l: &Line) -> u64
    requires right { heat_right l.now ≡ true }
    ensures burned { result ≡ amount_burned l.now }
{
    let measured = field::flags(l) as u64 % 2;
    let heat = entry::find_measured(l);
    field::amount(l) as u64 * (heat.0 as u64 + 1 - measured)
}

// The same of analysed gas.
pub fn sort_gas(
    book: &[u8],
    h: Head,
    i: usize,
    units: &[u32; 256],
    by_unit: &[u8; 1024],
    fuels: &[u32; 320],
    by_fuel: &[u8; 1024],
    limits: &[u32; 8],
) -> Option<Share>
    requires opened { opened book.now ≡ accepted h }
    requires there { (i < h.n) × (kind (line i book.now) ≡ 3) }
    requires units { UnitsNoted (unit_lines h book.now) units.now × Small by_unit.now }
    requires fuels { FuelsNoted (fuel_lines h book.now) fuels.now × Small by_fuel.now × (limits.now ≡ heat_limits) }
    ensures settled { Settled h book.now i result }
{
    let l = bytes::take_line(book, i);
    let (j, unit_right) = index::look_up(field::unit_number(l), units, by_unit);
    let (k, fuel_right) = index::look_up(field::fuel_number(l), fuels, by_fuel);
    let volume = fuels[index::VOLUMES + k];
    // Carbon is always measured, so that any unit permits it.
    let allowed = is_allowed(l, fuels[index::ALLOWED + k]);
    let heat_right = is_heat_right(l, limits);
    if !(unit_right & fuel_right & is_gas_right(l) & heat_right & (0 < volume) & allowed) {
        return None;
    }
    let way = units[index::WAYS + j];
    let counted = Amount(field::amount(l) * (1 - way / 4));
    let carbon = CarbonShare(field::carbon(l));
    let weight = MolecularWeight(field::molecular_weight(l));
    let co2 = gas::weigh(counted, carbon, weight, MolarVolume(volume));
    Some(Share {
        at: 16 * k + way as usize,
        way: 2 + field::flags(l) as usize % 2,
        burned: find_burned(l),
        carbon: 0,
        co2,
    })
}

fn is_gas_right(l: &Line) -> bool
    ensures right { result ≡ gas_right l.now }
{
    let flags = field::flags(l);
    let month = field::period(l);
    let amount = field::amount(l);
    let carbon = field::carbon(l);
    let weight = field::molecular_weight(l);
    (flags <= 7)
        & !field::is_carbon_flagged(l)
        & (1 <= month)
        & (month <= 12)
        & (amount <= 100000000)
        & (carbon <= 1000000)
        & (1 <= weight)
        & (weight <= 200000)
        & field::is_gas_blank(l)
}
