// The CO2 of gas whose carbon a laboratory tells by weight: its molecular weight, held against the room that a
// kmol takes, says what a cubic metre of it weighs.
ghost use Rattle.std.specs.Prelude.{◌≡◌};
ghost use Rattle.mass.specs.Gas.{GasInReach, co2_of_gas};

use crate::fuel::Amount;
use crate::{Ug, fuel, rounding};

// Carbon in mg for each kg of gas.
#[derive(Clone, Copy)]
pub struct CarbonShare(pub u32);

// Molecular weight in g for each kmol.
#[derive(Clone, Copy)]
pub struct MolecularWeight(pub u32);

// The room that a kmol of gas takes, in litres.
#[derive(Clone, Copy)]
pub struct MolarVolume(pub u32);

pub fn weigh(a: Amount, c: CarbonShare, w: MolecularWeight, v: MolarVolume) -> Ug
    requires reach { GasInReach a.0 c.0 w.0 v.0 }
    ensures exact { result ≡ co2_of_gas a c w v }
{
    let carbon = a.0 as u64 * c.0 as u64;
    let weight = w.0 * fuel::CO2_OF_CARBON as u32;
    let co2 = rounding::round_product(carbon, weight, v.0);
    Ug(co2)
}
