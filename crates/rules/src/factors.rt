// What a fuel line says of a fuel that was burned.
ghost use Rattle.std.specs.Prelude.{◌≡◌, ◌/◌, ◌<◌, length};
ghost use Rattle.rules.specs.Bytes.{line};
ghost use Rattle.rules.specs.Book.{fuel_lines, opened, accepted};
ghost use Rattle.rules.specs.Factors.{factors_of};

use crate::book::Head;
use crate::{bytes, listed};

#[derive(Clone, Copy)]
pub struct Factors {
    // The default heat in kJ for each unit of fuel, 0 for none.
    pub heat: u32,
    // CO2 in mg for each MJ, and the others in µg.
    pub co2: u32,
    pub ch4: u32,
    pub n2o: u32,
    // Whether its CO2 goes to the biomass ledger.
    pub biomass: bool,
}

// Of fuel line k of a book that was opened.
pub fn read_factors(book: &[u8], h: Head, k: usize) -> Factors
    requires opened { opened book.now ≡ accepted h }
    requires there { k < length (fuel_lines h book.now) / 32 }
    ensures factors { result ≡ factors_of (line k (fuel_lines h book.now)) }
{
    let f = bytes::take_line(h.fuel_lines(book), k);
    Factors {
        heat: listed::default_heat(f),
        co2: listed::co2_factor(f),
        ch4: listed::ch4_factor(f),
        n2o: listed::n2o_factor(f),
        biomass: listed::fuel_class(f) == 3,
    }
}
