// The fields of records, each read in one place.
ghost use Rattle.std.specs.Prelude.{◌≡◌, ◌<◌, ◌≤◌, length};
ghost use Rattle.rules.specs.Fields as fields;

use crate::bytes;
use crate::bytes::Line;

// ---- a record
pub(crate) fn kind(l: &Line) -> u8
    ensures field { result ≡ fields.kind l.now }
{
    l[0]
}

pub(crate) fn flags(l: &Line) -> u8
    ensures field { result ≡ fields.flags l.now }
{
    l[1]
}

pub(crate) fn unit_number(l: &Line) -> u64
    ensures field { result ≡ fields.unit_number l.now }
{
    bytes::read_word(l, 2, 2)
}

pub(crate) fn fuel_number(l: &Line) -> u64
    ensures field { result ≡ fields.fuel_number l.now }
{
    bytes::read_word(l, 4, 2)
}

// The month or, of a monitor hour, the hour of the year.
pub(crate) fn period(l: &Line) -> u64
    ensures field { result ≡ fields.period l.now }
{
    bytes::read_word(l, 6, 2)
}

// ---- a fuel record
pub(crate) fn is_fuelled(l: &Line) -> bool
    ensures field { result ≡ fields.fuelled l.now }
{
    (l[0] == 1) | is_analysed(l)
}

pub(crate) fn is_analysed(l: &Line) -> bool
    ensures field { result ≡ fields.analysed l.now }
{
    l[0] == 3
}

pub(crate) fn is_heat_measured(l: &Line) -> bool
    ensures field { result ≡ fields.heat_measured l.now }
{
    l[1] % 2 == 1
}

pub(crate) fn is_carbon_flagged(l: &Line) -> bool
    ensures field { result ≡ fields.carbon_flagged l.now }
{
    l[1] / 2 % 2 == 1
}

pub(crate) fn is_carbon_measured(l: &Line) -> bool
    ensures field { result ≡ fields.carbon_measured l.now }
{
    is_analysed(l) | is_carbon_flagged(l)
}

pub(crate) fn is_heat_low(l: &Line) -> bool
    ensures field { result ≡ fields.heat_low l.now }
{
    l[1] / 4 % 2 == 1
}

pub(crate) fn amount(l: &Line) -> u32
    ensures field { result ≡ fields.amount l.now }
{
    bytes::read_word(l, 8, 4) as u32
}

pub(crate) fn heat(l: &Line) -> u32
    ensures field { result ≡ fields.heat l.now }
{
    bytes::read_word(l, 12, 4) as u32
}

pub(crate) fn carbon(l: &Line) -> u32
    ensures field { result ≡ fields.carbon l.now }
{
    bytes::read_word(l, 16, 4) as u32
}

pub(crate) fn is_fuel_record_blank(l: &Line) -> bool
    ensures field { result ≡ fields.fuel_record_blank l.now }
{
    bytes::are_zero(l, 20, 32)
}

// ---- analysed gas
pub(crate) fn molecular_weight(l: &Line) -> u32
    ensures field { result ≡ fields.molecular_weight l.now }
{
    bytes::read_word(l, 20, 4) as u32
}

pub(crate) fn is_gas_blank(l: &Line) -> bool
    ensures field { result ≡ fields.gas_blank l.now }
{
    bytes::are_zero(l, 24, 32)
}

// ---- a monitor hour
pub(crate) fn percent_bits(l: &Line) -> u32
    ensures field { result ≡ fields.percent_bits l.now }
{
    bytes::read_word(l, 8, 4) as u32
}

pub(crate) fn flow_bits(l: &Line) -> u32
    ensures field { result ≡ fields.flow_bits l.now }
{
    bytes::read_word(l, 12, 4) as u32
}

pub(crate) fn moisture(l: &Line) -> u16
    ensures field { result ≡ fields.moisture l.now }
{
    bytes::read_word(l, 16, 2) as u16
}

pub(crate) fn is_hour_blank(l: &Line) -> bool
    ensures field { result ≡ fields.hour_blank l.now }
{
    bytes::are_zero(l, 18, 32)
}

// ---- anodes
pub(crate) fn metal(l: &Line) -> u32
    ensures field { result ≡ fields.metal l.now }
{
    bytes::read_word(l, 8, 4) as u32
}

pub(crate) fn anode_use(l: &Line) -> u32
    ensures field { result ≡ fields.anode_use l.now }
{
    bytes::read_word(l, 12, 4) as u32
}

pub(crate) fn sulphur(l: &Line) -> u64
    ensures field { result ≡ fields.sulphur l.now }
    ensures below { result < 65536 }
{
    bytes::read_word(l, 16, 2)
}

pub(crate) fn ash(l: &Line) -> u64
    ensures field { result ≡ fields.ash l.now }
    ensures below { result < 65536 }
{
    bytes::read_word(l, 18, 2)
}

pub(crate) fn other_impurities(l: &Line) -> u64
    ensures field { result ≡ fields.other_impurities l.now }
    ensures below { result < 65536 }
{
    bytes::read_word(l, 20, 2)
}

pub(crate) fn is_anodes_blank(l: &Line) -> bool
    ensures field { result ≡ fields.anodes_blank l.now }
{
    bytes::are_zero(l, 22, 32)
}
