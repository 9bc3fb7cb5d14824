// The arithmetic of masses: fuel burned, gas analysed, monitor hours, anodes used up, ledgers, and what a
// report says of them.
// It knows no byte, record or book. Every mass has a type of its own, so that no unit meets another.
#![tactic(auto)]

pub mod anode;
pub mod figures;
pub mod fuel;
pub mod gas;
pub mod hour;
pub mod ledger;
mod reading;
mod rounding;

// Micrograms: CO2 of one record.
#[derive(Clone, Copy)]
pub struct Ug(pub u64);

// Nanograms: CH4 and N2O of one record, and the rest of a ledger.
#[derive(Clone, Copy)]
pub struct Ng(pub u64);

// Kilograms: what a report says.
#[derive(Clone, Copy)]
pub struct Kg(pub u64);
