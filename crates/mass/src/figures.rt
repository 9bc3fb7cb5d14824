// What a report says of a site's ledgers: five figures in kilograms, and whether it must report.
ghost use Rattle.std.specs.Prelude.{◌≡◌, ◌+◌, ◌*◌, ◌≤◌, min};
ghost use Rattle.mass.specs.Ledger.{tonne, total, Canonical, ledger_of};
ghost use Rattle.mass.specs.Figures.{kg_of, AllSound, Mild, co2e_of, decisive, must_report, figures_of};

use crate::ledger::{Ledger, Ledgers};
use crate::{Kg, Ng, ledger};

// How many kilograms of CO2 one of each gas stands for.
#[derive(Clone, Copy)]
pub struct Warming {
    pub ch4: u64,
    pub n2o: u64,
}

#[derive(Clone, Copy)]
pub struct Figures {
    pub fossil: Kg,
    pub biomass: Kg,
    pub ch4: Kg,
    pub n2o: Kg,
    pub co2e: Kg,
    // Whether the site must report.
    pub reportable: bool,
}

const KG_PER_TONNE: u64 = 1000;

const NG_PER_KG: u64 = 1_000_000_000_000;

const HALF_KG: u64 = 500_000_000_000;

// The tonnes from which a site must report, from which it reports without regard to biomass, and
// of biomass CO2 that it may leave out below that.
const REPORT_FROM: u64 = 10000;

const REPORT_ALL_FROM: u64 = 25000;

const LEAVE_OUT_MOST: u64 = 15000;

// The report of a site with these ledgers, under these warming values.
pub fn work_out(t: Ledgers, w: Warming) -> Figures
    requires sound { AllSound t }
    requires mild { Mild w }
    ensures exact { result ≡ figures_of t w }
{
    let fossil = t.fossil;
    let biomass = t.biomass;
    let ch4 = t.ch4;
    let n2o = t.n2o;
    let all = sum_co2e(t, w);
    Figures {
        fossil: round_to_kg(fossil),
        biomass: round_to_kg(biomass),
        ch4: round_to_kg(ch4),
        n2o: round_to_kg(n2o),
        co2e: round_to_kg(all),
        reportable: must_report(all, biomass),
    }
}

// Half a kilogram goes up.
fn round_to_kg(g: Ledger) -> Kg
    requires canonical { Canonical g }
    requires room { g.tonnes ≤ 10000000000000000 }
    ensures rounded { result ≡ kg_of (total g) }
{
    let kg = g.tonnes * KG_PER_TONNE + (g.rest.0 + HALF_KG) / NG_PER_KG;
    Kg(kg)
}

// The CO2 equivalent.
fn sum_co2e(t: Ledgers, w: Warming) -> Ledger
    requires sound { AllSound t }
    requires mild { Mild w }
    ensures exact { result ≡ ledger_of (co2e_of t w) }
{
    let tonnes = weigh_up(
        t.fossil.tonnes,
        t.biomass.tonnes,
        t.ch4.tonnes,
        t.n2o.tonnes,
        w,
    );
    let rest = weigh_up(
        t.fossil.rest.0,
        t.biomass.rest.0,
        t.ch4.rest.0,
        t.n2o.rest.0,
        w,
    );
    ledger::carry(tonnes, rest)
}

// Tonnes, or ng: neither is above 10^15 in a sound ledger.
fn weigh_up(fossil: u64, biomass: u64, ch4: u64, n2o: u64, w: Warming) -> u64
    requires mild { Mild w }
    requires room { (fossil ≤ tonne) × (biomass ≤ tonne) × (ch4 ≤ tonne) × (n2o ≤ tonne) }
    ensures exact { result ≡ fossil + biomass + w.ch4 * ch4 + w.n2o * n2o }
{
    fossil + biomass + w.ch4 * ch4 + w.n2o * n2o
}

// Whether a site with this CO2 equivalent, of which so much is biomass CO2, must report.
fn must_report(all: Ledger, biomass: Ledger) -> bool
    requires canonical { Canonical all × Canonical biomass }
    requires part { total biomass ≤ total all }
    ensures decided { result ≡ must_report (total all) (total biomass) }
{
    let left = leave_out(all, biomass);
    REPORT_FROM <= left.tonnes
}

// What is held against 10,000 t.
fn leave_out(all: Ledger, biomass: Ledger) -> Ledger
    requires canonical { Canonical all × Canonical biomass }
    requires part { total biomass ≤ total all }
    ensures exact { result ≡ ledger_of (decisive (total all) (total biomass)) }
{
    if REPORT_ALL_FROM <= all.tonnes {
        return all;
    }
    ledger::subtract(all, cap(biomass))
}

// At most 15,000 t of it.
fn cap(g: Ledger) -> Ledger
    requires canonical { Canonical g }
    ensures capped { result ≡ ledger_of (min (total g) (15000 * tonne)) }
{
    if LEAVE_OUT_MOST <= g.tonnes {
        return Ledger {
            tonnes: LEAVE_OUT_MOST,
            rest: Ng(0),
        };
    }
    g
}
