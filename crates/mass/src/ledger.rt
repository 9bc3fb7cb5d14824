// A ledger: whole tonnes and a rest in ng, so that a year's mass is exact in two words.
ghost use Rattle.std.specs.Prelude.{◌≡◌, ◌+◌, ◌-◌, ◌*◌, ◌<◌, ◌≤◌};
ghost use Rattle.mass.specs.Ledger.{tonne, total, Canonical, Sound, ledger_of, added};

use crate::{Ng, Ug};

#[derive(Clone, Copy)]
pub struct Ledger {
    pub tonnes: u64,
    // Below a tonne.
    pub rest: Ng,
}

// Where every mass of a site goes.
#[derive(Clone, Copy)]
pub struct Ledgers {
    pub fossil: Ledger,
    pub biomass: Ledger,
    pub ch4: Ledger,
    pub n2o: Ledger,
}

pub const NG_PER_TONNE: u64 = 1_000_000_000_000_000;

const UG_PER_TONNE: u64 = 1_000_000_000_000;

const NG_PER_UG: u64 = 1000;

pub fn add_ug(g: Ledger, x: Ug) -> Ledger
    requires sound { Sound g }
    ensures exact { result ≡ added g (1000 * x.0) }
{
    // The whole tonnes go first: all of x in ng may not fit 64 bits.
    let rest = x.0 % UG_PER_TONNE * NG_PER_UG;
    carry(g.tonnes + x.0 / UG_PER_TONNE, g.rest.0 + rest)
}

// The rest and x fit 64 bits together, so that one division carries all tonnes.
pub fn add_ng(g: Ledger, x: Ng) -> Ledger
    requires sound { Sound g }
    requires room { x.0 < 9223372036854775808 }
    ensures exact { result ≡ added g x.0 }
{
    carry(g.tonnes, g.rest.0 + x.0)
}

// The ledger of so many tonnes and ng, which may pass a tonne many times over.
pub(crate) fn carry(tonnes: u64, rest: u64) -> Ledger
    requires room { tonnes ≤ 1000000000000000000 }
    ensures exact { result ≡ ledger_of (tonnes * tonne + rest) }
{
    Ledger {
        tonnes: tonnes + rest / NG_PER_TONNE,
        rest: Ng(rest % NG_PER_TONNE),
    }
}

pub(crate) fn subtract(g: Ledger, x: Ledger) -> Ledger
    requires canonical { Canonical g × Canonical x }
    requires part { total x ≤ total g }
    ensures exact { result ≡ ledger_of (total g - total x) }
{
    if x.rest.0 <= g.rest.0 {
        return Ledger {
            tonnes: g.tonnes - x.tonnes,
            rest: Ng(g.rest.0 - x.rest.0),
        };
    }
    Ledger {
        tonnes: g.tonnes - x.tonnes - 1,
        rest: Ng(NG_PER_TONNE + g.rest.0 - x.rest.0),
    }
}
