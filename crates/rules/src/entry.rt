// What a record that counts gives to the ledgers.
ghost use Rattle.std.specs.Prelude.{◌≡◌, ◌≤◌, true, length};
ghost use Rattle.rules.specs.Fields.{heat};
ghost use Rattle.rules.specs.Book.{fuel_ok};
ghost use Rattle.rules.specs.Record.{heat_limit, fuel_ranges, anodes_ranges};
ghost use Rattle.rules.specs.Entry.{measured_heat, heat_in_use, co2_by_carbon, co2_by, destination_by, entry_by, co2_alone, impurities, anodes_entry};

use crate::bytes::Line;
use crate::{field, listed};
use mass::anode::{AnodeUse, Impurities, Metal};
use mass::fuel::{Amount, Carbon, Co2Factor, Heat, LowHeat, TraceFactor};
use mass::gas::{CarbonShare, MolarVolume, MolecularWeight};
use mass::{Ng, Ug, anode, fuel, gas};

// The ledger that a record's CO2 goes to. CH4 and N2O have one each.
#[derive(Clone, Copy)]
pub enum Destination {
    Fossil,
    Biomass,
    // A monitored unit's fuel gives no CO2.
    Nowhere,
}

#[derive(Clone, Copy)]
pub struct Entry {
    // 1 to 4, or 0 for a record of no fuel.
    pub method: u8,
    pub destination: Destination,
    pub co2: Ug,
    pub ch4: Ng,
    pub n2o: Ng,
}

// What the record gives by this method and with this heat in use.
pub(crate) fn make_entry(method: u8, h: Heat, l: &Line, f: &Line) -> Entry
    requires ranges { fuel_ranges l.now f.now ≡ true }
    requires fuel { fuel_ok f.now ≡ true }
    requires used { h ≡ heat_in_use l.now f.now }
    ensures entry { result ≡ entry_by method l.now f.now }
{
    let destination = find_destination(method, f);
    let co2 = weigh_co2(method, h, l, f);
    let a = Amount(field::amount(l));
    let ch4 = fuel::weigh_trace(a, h, TraceFactor(listed::ch4_factor(f)));
    let n2o = fuel::weigh_trace(a, h, TraceFactor(listed::n2o_factor(f)));
    Entry {
        method,
        destination,
        co2,
        ch4,
        n2o,
    }
}

// The heat in use.
pub(crate) fn find_heat(l: &Line, f: &Line) -> Heat
    requires ranges { fuel_ranges l.now f.now ≡ true }
    ensures heat { result ≡ heat_in_use l.now f.now }
{
    if field::is_heat_measured(l) {
        return find_measured(l);
    }
    Heat(listed::default_heat(f))
}

// The heat that the record gives.
pub(crate) fn find_measured(l: &Line) -> Heat
    requires range { heat l.now ≤ heat_limit l.now }
    ensures heat { result ≡ measured_heat l.now }
{
    let heat = field::heat(l);
    if field::is_heat_low(l) {
        return fuel::find_high(LowHeat(heat));
    }
    Heat(heat)
}

fn find_destination(by: u8, f: &Line) -> Destination
    ensures ledger { result ≡ destination_by by f.now }
{
    if by == 4 {
        return Destination::Nowhere;
    }
    if listed::fuel_class(f) == 3 {
        return Destination::Biomass;
    }
    Destination::Fossil
}

fn weigh_co2(method: u8, h: Heat, l: &Line, f: &Line) -> Ug
    requires ranges { fuel_ranges l.now f.now ≡ true }
    requires fuel { fuel_ok f.now ≡ true }
    requires used { h ≡ heat_in_use l.now f.now }
    ensures co2 { result ≡ co2_by method l.now f.now }
{
    if method == 4 {
        return Ug(0);
    }
    if method == 3 {
        return weigh_carbon(l, f);
    }
    let a = Amount(field::amount(l));
    fuel::weigh_by_heat(a, h, Co2Factor(listed::co2_factor(f)))
}

fn weigh_carbon(l: &Line, f: &Line) -> Ug
    requires ranges { fuel_ranges l.now f.now ≡ true }
    requires fuel { fuel_ok f.now ≡ true }
    ensures co2 { result ≡ co2_by_carbon l.now f.now }
{
    let a = Amount(field::amount(l));
    let carbon = field::carbon(l);
    if field::is_analysed(l) {
        let weight = MolecularWeight(field::molecular_weight(l));
        let volume = MolarVolume(listed::molar_volume(f));
        return gas::weigh(a, CarbonShare(carbon), weight, volume);
    }
    fuel::weigh_by_carbon(a, Carbon(carbon))
}

// What a record of no fuel gives.
pub(crate) fn give_co2(co2: Ug) -> Entry
    ensures entry { result ≡ co2_alone co2 }
{
    Entry {
        method: 0,
        destination: Destination::Fossil,
        co2,
        ch4: Ng(0),
        n2o: Ng(0),
    }
}

pub(crate) fn make_anodes_entry(l: &Line) -> Entry
    requires ranges { anodes_ranges l.now ≡ true }
    ensures entry { result ≡ anodes_entry l.now }
{
    let metal = Metal(field::metal(l));
    let used = AnodeUse(field::anode_use(l));
    let impurities = Impurities(sum_impurities(l));
    give_co2(anode::weigh(metal, used, impurities))
}

// Three fields of two bytes add up to more than two bytes hold.
pub(crate) fn sum_impurities(l: &Line) -> u32
    ensures sum { result ≡ impurities l.now }
{
    let sulphur = field::sulphur(l);
    let ash = field::ash(l);
    let other = field::other_impurities(l);
    (sulphur + ash + other) as u32
}
