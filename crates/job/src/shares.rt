// What the fuel records of a leg add, in words that it lends: 16 for each fuel line. The factors of a fuel enter once,
// when all are added, so that a record takes two products and no factor is looked up.
ghost use Rattle.std.specs.Prelude.{◌≡◌, ℕ, ◌+◌, ◌-◌, ◌*◌, ◌/◌, ◌%◌, ◌<◌, ◌≤◌, replicate, slice_index};
ghost use Rattle.rules.specs.Book.{fuel_lines, opened, accepted};
ghost use Rattle.job.specs.State as state;
ghost use Rattle.job.specs.Words.{carries, mass_at, Kept};
ghost use Rattle.job.specs.Shares.{leg_records, coarse, units_each, rest_each, pour_each, pour_most, shared, shares_at, co2_place_of, counted_in, other_in, weighed, gathered, sum_at, poured, Held, Modest, Summed, Gathered};

use crate::ledgers;
use rules::book::Head;
use rules::factors;
use rules::factors::Factors;
use rules::sorting::Share;

// µg of CO2 for each mg of carbon.
const CO2_OF_CARBON: u64 = 3664;

// The place of the carbon among the words of a fuel.
const CARBON: usize = 8;

// A sum is held by what it has of this and by the rest, so that 64 bits hold it times a factor.
const COARSE: u64 = 1_000_000;

// How many coarse units a high digit of the ledgers' words counts.
const FULL: u64 = 9_000_000_000_000;

// One share more.
pub(crate) fn add(d: &mut [u64; 1024], x: Share)
    requires there { (x.at + 8 < 1024) × (x.way < 4) }
    requires room { (slice_index d.old (x.at + x.way) + x.burned < 18446744073709551616) × (slice_index d.old (x.at + 8) + x.carbon < 18446744073709551616) }
    ensures shared { d.new ≡ shared d.old x }
{
    d[x.at + x.way] += x.burned;
    d[x.at + CARBON] += x.carbon;
}

// Gives the ledgers' words what all shares come to.
pub(crate) fn settle(book: &[u8], h: Head, d: &[u64; 1024], w: &mut [u64])
    requires opened { opened book.now ≡ accepted h }
    requires held { Held leg_records d.now }
    requires kept { Kept (carries - pour_most) w.old }
    ensures settled { (i : ℕ) → i < state.ledgers → mass_at w.new i ≡ mass_at w.old i + shares_at (fuel_lines h book.now) d.now i }
    ensures kept { (m : ℕ) → Kept m w.old → Kept (m + pour_most) w.new }
{
    let mut sums = [0u64; 8];
    gather(book, h, d, &mut sums);
    pour(w, &sums);
}

// Adds up what the shares of all fuel lines come to: for each ledger how many coarse units, and then the rests.
fn gather(book: &[u8], h: Head, d: &[u64; 1024], sums: &mut [u64; 8])
    requires opened { opened book.now ≡ accepted h }
    requires held { Held leg_records d.now }
    requires blank { sums.old ≡ replicate 8 0 }
    ensures gathered { Gathered (fuel_lines h book.now) d.now sums.new }
{
    let n = (h.length - 32 - h.fuels) / 32;
    for k in 0..n {
        gather_line(factors::read_factors(book, h, k), k, d, sums);
    }
}

// Those of fuel line k.
fn gather_line(f: Factors, k: usize, d: &[u64; 1024], sums: &mut [u64; 8])
    requires there { (k < 64) × Modest f }
    requires held { Held leg_records d.now }
    requires room { Summed k sums.old }
    ensures gathered { sums.new ≡ gathered f k d.now sums.old }
{
    let heat = f.heat as u64;
    let counted = find_counted(heat, k, d);
    let all = counted + find_other(heat, k, d);
    let co2 = find_co2(f.biomass);
    weigh(sums, co2, counted, f.co2 as u64);
    weigh(sums, co2, d[16 * k + CARBON], CO2_OF_CARBON);
    weigh(sums, ledgers::CH4, all, f.ch4 as u64);
    weigh(sums, ledgers::N2O, all, f.n2o as u64);
}

// The heat from which CO2 comes.
fn find_counted(heat: u64, k: usize, d: &[u64; 1024]) -> u64
    requires there { (k < 64) × (heat ≤ 200000) }
    requires held { Held leg_records d.now }
    ensures counted { result ≡ counted_in heat d.now k }
{
    let at = 16 * k;
    d[at + 1] + heat * d[at]
}

// The heat whose CO2 comes from the carbon, or is a monitor's.
fn find_other(heat: u64, k: usize, d: &[u64; 1024]) -> u64
    requires there { (k < 64) × (heat ≤ 200000) }
    requires held { Held leg_records d.now }
    ensures other { result ≡ other_in heat d.now k }
{
    let at = 16 * k;
    let measured = d[at + 3] + d[at + 5] + d[at + 7];
    measured + heat * (d[at + 2] + d[at + 4] + d[at + 6])
}

fn find_co2(biomass: bool) -> usize
    ensures place { result ≡ co2_place_of biomass }
{
    if biomass {
        ledgers::BIOMASS
    } else {
        ledgers::FOSSIL
    }
}

// x × factor more at place i, in coarse units and the rest.
fn weigh(sums: &mut [u64; 8], i: usize, x: u64, factor: u64)
    requires there { i < state.ledgers }
    requires room { (slice_index sums.old i + x / coarse * factor < 18446744073709551616) × (slice_index sums.old (state.ledgers + i) + x % coarse * factor < 18446744073709551616) }
    ensures weighed { sums.new ≡ weighed sums.old i x factor }
{
    sums[i] += x / COARSE * factor;
    sums[ledgers::COUNT + i] += x % COARSE * factor;
}

// Gives all sums to the ledgers' words.
fn pour(w: &mut [u64], sums: &[u64; 8])
    requires few { Summed 64 sums.now }
    requires kept { Kept (carries - pour_most) w.old }
    ensures poured { (i : ℕ) → i < state.ledgers → mass_at w.new i ≡ mass_at w.old i + sum_at sums.now i }
    ensures kept { (m : ℕ) → Kept m w.old → Kept (m + pour_most) w.new }
{
    for i in 0..ledgers::COUNT {
        pour_at(w, i, sums[i], sums[ledgers::COUNT + i]);
    }
}

// So many coarse units and so much more at place i.
fn pour_at(w: &mut [u64], i: usize, units: u64, rest: u64)
    requires there { i < state.ledgers }
    requires few { (units ≤ 64 * units_each) × (rest ≤ 64 * rest_each) }
    requires kept { Kept (carries - pour_each) w.old }
    ensures poured { w.new ≡ poured w.old i units rest }
{
    w[ledgers::COUNT + i] += units / FULL;
    ledgers::add(w, i, units % FULL * COARSE);
    ledgers::add(w, i, rest);
}
