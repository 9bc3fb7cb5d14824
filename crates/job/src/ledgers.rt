// What the records of a wake give to the ledgers, in words that it lends: for each place a number of two digits, in
// µg of CO2 or in ng of another gas, first the low digits of all places and then the high ones. To add to a ledger
// takes divisions, and the masses of many records fit 64 bits: so they are summed, and a ledger gets them once.
ghost use Rattle.std.specs.Prelude.{◌≡◌, ◌+◌, ◌*◌, ◌/◌, ◌<◌, ◌≤◌, length, Ok};
ghost use Rattle.mass.specs.Ledger.{tonne, most_tonnes, total, Canonical, Sound, ledger_of};
ghost use Rattle.rules.specs.Bounds.{Bounded};
ghost use Rattle.job.specs.State as state;
ghost use Rattle.job.specs.Words.{words, carries, full, half, low_at, high_at, mass_at, added, given, co2_place, co2_kept, Kept};

use mass::ledger::Ledger;
use mass::{Ng, Ug, ledger};
use rules::entry::{Destination, Entry};

// How many ledgers there are, and the place of each.
pub(crate) const COUNT: usize = 4;

pub(crate) const FOSSIL: usize = 0;

pub(crate) const BIOMASS: usize = 1;

pub(crate) const CH4: usize = 2;

pub(crate) const N2O: usize = 3;

// How many words there are, and where the high digits start.
pub(crate) const WORDS: usize = 2 * COUNT;

const HIGH: usize = COUNT;

// What a high digit counts: 9,000,000 t of CO2, or 9,000 of another gas.
const FULL: u64 = 9_000_000_000_000_000_000;

const CO2_TONNES: u64 = 9_000_000;

const TRACE_TONNES: u64 = 9_000;

// A low digit stays below this, so that the mass of any record fits 64 bits with it. That is more than a high digit
// counts, but a processor sees by one bit whether a number is below it.
const HALF: u64 = 0x8000_0000_0000_0000;

// All that an entry gives.
pub(crate) fn give(w: &mut [u64], e: Entry)
    requires kept { Kept carries w.old }
    requires bounded { Bounded (Ok e) }
    ensures given { w.new ≡ given w.old e }
{
    let destination = e.destination;
    let co2 = e.co2;
    add(w, find_place(destination), keep(destination, co2));
    add(w, CH4, e.ch4.0);
    add(w, N2O, e.n2o.0);
}

// Where CO2 goes. For that which goes nowhere any place will do.
fn find_place(d: Destination) -> usize
    ensures place { result ≡ co2_place d }
{
    match d {
        Destination::Fossil | Destination::Nowhere => FOSSIL,
        Destination::Biomass => BIOMASS,
    }
}

// How much of it.
fn keep(d: Destination, x: Ug) -> u64
    ensures kept { result ≡ co2_kept d x.0 }
{
    match d {
        Destination::Fossil | Destination::Biomass => x.0,
        Destination::Nowhere => 0,
    }
}

// x more at place k.
pub(crate) fn add(w: &mut [u64], k: usize, x: u64)
    requires whole { (length w.old ≡ words) × (k < state.ledgers) }
    requires room { (low_at w.old k < half) × (x < full) × (high_at w.old k ≤ carries + 2) }
    ensures added { w.new ≡ added w.old k x }
{
    let sum = w[k] + x;
    if sum < HALF {
        w[k] = sum;
        return;
    }
    w[k] = sum - FULL;
    w[HIGH + k] += 1;
}

// The ledger g of place k with what the records give.
pub(crate) fn gather(g: Ledger, k: usize, w: &[u64]) -> Ledger
    requires whole { (length w.now ≡ words) × (k < state.ledgers) }
    requires light { Canonical g × ((total g + mass_at w.now k) / tonne ≤ most_tonnes) × (low_at w.now k < half) }
    ensures gathered { result ≡ ledger_of (total g + mass_at w.now k) }
{
    let low = w[k];
    let high = w[HIGH + k];
    // Hours and anodes give to one ledger alone.
    if low == 0 && high == 0 {
        return g;
    }
    if k < CH4 {
        return ledger::add_ug(raise(g, CO2_TONNES, high), Ug(low));
    }
    ledger::add_ng(raise(g, TRACE_TONNES, high), Ng(low))
}

// The ledger g with so many tonnes more for each of `times`.
fn raise(g: Ledger, tonnes: u64, times: u64) -> Ledger
    requires light { Canonical g × (g.tonnes + tonnes * times ≤ most_tonnes) }
    ensures raised { (total result ≡ total g + tonnes * times * tonne) × Sound result }
{
    Ledger {
        tonnes: g.tonnes + tonnes * times,
        ..g
    }
}
