// Masses from fuel burned. No function adds two amounts, so kilograms, litres and cubic metres of
// fuel never meet.
ghost use Rattle.std.specs.Prelude.{◌≡◌, ◌*◌, ◌≤◌};
ghost use Rattle.mass.specs.Fuel.{HeatInReach, CarbonInReach, co2_of_heat, co2_of_carbon, trace_of_heat, high_of};

use crate::{Ng, Ug};

// An amount of fuel in the unit of its kind: kilograms, litres or standard cubic metres.
#[derive(Clone, Copy)]
pub struct Amount(pub u32);

// Heat in kJ for each unit of fuel.
#[derive(Clone, Copy)]
pub struct Heat(pub u32);

// Heat as some suppliers of natural gas quote it, without that of its water vapour. No mass is made
// from it as it stands.
#[derive(Clone, Copy)]
pub struct LowHeat(pub u32);

// Carbon in mg for each unit of fuel.
#[derive(Clone, Copy)]
pub struct Carbon(pub u32);

// CO2 in mg for each MJ of heat.
#[derive(Clone, Copy)]
pub struct Co2Factor(pub u32);

// CH4 or N2O in µg for each MJ of heat.
#[derive(Clone, Copy)]
pub struct TraceFactor(pub u32);

// µg of CO2 for each mg of carbon.
pub(crate) const CO2_OF_CARBON: u64 = 3664;

// 1.11 kJ of heat for each kJ of low value, in hundredths.
const HUNDREDTHS_OF_LOW: u32 = 111;

const HUNDREDTHS_PER_KJ: u32 = 100;

const HALF_KJ: u32 = 50;

// CO2 by methods 1 and 2.
pub fn weigh_by_heat(a: Amount, h: Heat, x: Co2Factor) -> Ug
    requires reach { HeatInReach a.0 h.0 x.0 }
    ensures exact { result ≡ co2_of_heat a h x }
{
    let co2 = multiply(a.0, h.0, x.0);
    Ug(co2)
}

// CO2 by method 3.
pub fn weigh_by_carbon(a: Amount, c: Carbon) -> Ug
    requires reach { CarbonInReach a.0 c.0 }
    ensures exact { result ≡ co2_of_carbon a c }
{
    let carbon = a.0 as u64 * c.0 as u64;
    let co2 = carbon * CO2_OF_CARBON;
    Ug(co2)
}

// CH4 or N2O, whose factors are a thousandth of a CO2 factor's unit: hence ng.
pub fn weigh_trace(a: Amount, h: Heat, x: TraceFactor) -> Ng
    requires reach { HeatInReach a.0 h.0 x.0 }
    ensures exact { result ≡ trace_of_heat a h x }
{
    let trace = multiply(a.0, h.0, x.0);
    Ng(trace)
}

// The heat of natural gas by its low value, to the nearest kJ; half a kJ goes up.
pub fn find_high(h: LowHeat) -> Heat
    requires reach { h.0 ≤ 180000 }
    ensures exact { result ≡ high_of h }
{
    let hundredths = h.0 * HUNDREDTHS_OF_LOW;
    let kj = (hundredths + HALF_KJ) / HUNDREDTHS_PER_KJ;
    Heat(kj)
}

fn multiply(amount: u32, heat: u32, factor: u32) -> u64
    requires reach { HeatInReach amount heat factor }
    ensures exact { result ≡ amount * heat * factor }
{
    amount as u64 * heat as u64 * factor as u64
}
