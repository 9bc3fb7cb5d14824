// The fields of a book's trailer, each read in one place.
ghost use Rattle.std.specs.Prelude.{◌≡◌, ◌≤◌, length, nat_eq, nat_le};
ghost use Rattle.choice.specs.Tests.{◌also◌};
ghost use Rattle.rules.specs.Fields as fields;

use crate::bytes;
use crate::bytes::Line;

// `STCB`.
const SIGNATURE: u64 = 0x4243_5453;

pub(crate) fn is_signed(l: &Line) -> bool
    ensures field { result ≡ fields.signed l.now }
{
    bytes::read_word(l, 0, 4) == SIGNATURE
}

// A field and the bytes behind it that must be 0 are read as one number: it passes a test that fails for larger
// numbers than the field can hold only if these bytes are 0.
pub(crate) fn is_version_right(l: &Line) -> bool
    ensures right { result ≡ (nat_eq (fields.version l.now) 1 also fields.trailer_gap l.now) }
{
    bytes::read_word(l, 4, 4) == 1
}

pub(crate) fn unit_start(l: &Line) -> usize
    ensures field { result ≡ fields.unit_start l.now }
{
    bytes::read_word(l, 8, 4) as usize
}

pub(crate) fn fuel_start(l: &Line) -> usize
    ensures field { result ≡ fields.fuel_start l.now }
{
    bytes::read_word(l, 12, 4) as usize
}

pub(crate) fn year(l: &Line) -> u64
    ensures field { result ≡ fields.year l.now }
{
    bytes::read_word(l, 16, 2)
}

pub(crate) fn is_year_right(l: &Line) -> bool
    ensures right { result ≡ (nat_le 2000 (fields.year l.now) also nat_le (fields.year l.now) 2099 also fields.year_gap l.now) }
{
    let year = bytes::read_word(l, 16, 4);
    (2000 <= year) & (year <= 2099)
}

pub(crate) fn warming_set(l: &Line) -> u8
    ensures field { result ≡ fields.warming_set l.now }
{
    l[20]
}

pub(crate) fn is_set_right(l: &Line) -> bool
    ensures right { result ≡ (nat_le (fields.warming_set l.now) 1 also fields.trailer_blank l.now) }
{
    let set = bytes::read_word(l, 20, 4);
    (set <= 1) & bytes::are_zero(l, 24, 32)
}
