// The method by which a fuel record's CO2 is worked out.
ghost use Rattle.std.specs.Prelude.{◌≡◌, ◌≤◌, length};
ghost use Rattle.rules.specs.Method.{method_of};

use crate::bytes::Line;
use crate::{field, listed};

// 250.0 MMBtu/h, in tenths.
pub(crate) const SMALL_RATING: u64 = 2500;

// 0 where none is permitted. A measured heat that isn't permitted is no ground to fall back to the
// default.
pub(crate) fn choose_method(l: &Line, u: &Line, f: &Line) -> u8
    ensures chosen { result ≡ method_of l.now u.now f.now }
{
    if listed::is_monitored(u) {
        return 4;
    }
    if field::is_carbon_measured(l) {
        return 3;
    }
    let small = listed::rating(u) <= SMALL_RATING;
    if field::is_heat_measured(l) {
        let class = listed::fuel_class(f);
        if small | (class == 1) | (class == 2) {
            return 2;
        }
        return 0;
    }
    if listed::default_heat(f) == 0 {
        return 0;
    }
    if small {
        return 1;
    }
    0
}
