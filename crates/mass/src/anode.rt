// The CO2 of prebaked anodes that a smelter uses up: their carbon leaves as CO2.
ghost use Rattle.std.specs.Prelude.{◌≡◌};
ghost use Rattle.mass.specs.Anode.{AnodesInReach, co2_of_anodes};

use crate::{Ug, fuel, rounding};

// Metal made, in kg.
#[derive(Clone, Copy)]
pub struct Metal(pub u32);

// Net anode use, in g for each kg of metal.
#[derive(Clone, Copy)]
pub struct AnodeUse(pub u32);

// What of the anodes isn't carbon, in hundredths of a percent.
#[derive(Clone, Copy)]
pub struct Impurities(pub u32);

const HUNDREDTHS: u64 = 10000;

// A hundredth of a percent of a gram is a tenth of a mg.
const TENTHS: u64 = 10;

pub fn weigh(m: Metal, w: AnodeUse, x: Impurities) -> Ug
    requires reach { AnodesInReach m.0 w.0 x.0 }
    ensures exact { result ≡ co2_of_anodes m w x }
{
    let anodes = m.0 as u64 * w.0 as u64;
    let carbon = anodes * (HUNDREDTHS - x.0 as u64);
    let tenths = carbon * fuel::CO2_OF_CARBON;
    let co2 = rounding::round_fraction(tenths, TENTHS);
    Ug(co2)
}
