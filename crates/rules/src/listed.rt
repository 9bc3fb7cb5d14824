// The fields of unit lines and of fuel lines, each read in one place.
ghost use Rattle.std.specs.Prelude.{◌≡◌, ◌≤◌, length};
ghost use Rattle.rules.specs.Fields as fields;

use crate::bytes;
use crate::bytes::Line;

// ---- a unit line or a fuel line
pub(crate) fn number(l: &Line) -> u64
    ensures field { result ≡ fields.number l.now }
{
    bytes::read_word(l, 0, 2)
}

// ---- a unit line
pub(crate) fn is_monitored(l: &Line) -> bool
    ensures field { result ≡ fields.monitored l.now }
{
    l[2] % 2 == 1
}

pub(crate) fn is_dry(l: &Line) -> bool
    ensures field { result ≡ fields.dry l.now }
{
    l[2] / 2 % 2 == 1
}

pub(crate) fn rating(l: &Line) -> u64
    ensures field { result ≡ fields.rating l.now }
{
    bytes::read_word(l, 4, 4)
}

// ---- a fuel line
pub(crate) fn fuel_kind(l: &Line) -> u8
    ensures field { result ≡ fields.fuel_kind l.now }
{
    l[2]
}

pub(crate) fn fuel_class(l: &Line) -> u8
    ensures field { result ≡ fields.fuel_class l.now }
{
    l[3]
}

pub(crate) fn default_heat(l: &Line) -> u32
    ensures field { result ≡ fields.default_heat l.now }
{
    bytes::read_word(l, 4, 4) as u32
}

pub(crate) fn co2_factor(l: &Line) -> u32
    ensures field { result ≡ fields.co2_factor l.now }
{
    bytes::read_word(l, 8, 4) as u32
}

pub(crate) fn ch4_factor(l: &Line) -> u32
    ensures field { result ≡ fields.ch4_factor l.now }
{
    bytes::read_word(l, 12, 4) as u32
}

pub(crate) fn n2o_factor(l: &Line) -> u32
    ensures field { result ≡ fields.n2o_factor l.now }
{
    bytes::read_word(l, 16, 4) as u32
}

pub(crate) fn molar_volume(l: &Line) -> u32
    ensures field { result ≡ fields.molar_volume l.now }
{
    bytes::read_word(l, 20, 4) as u32
}
