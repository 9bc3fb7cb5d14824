// Rounding to the nearest whole number, a half going to the even one: fractions, and multiples of a double.
ghost use Rattle.std.specs.Prelude.{◌≡◌, ◌+◌, ◌*◌, ◌^◌, ◌<◌, ◌≤◌, T};
ghost use Rattle.std.specs.Float.{binary64};
ghost use Rattle.mass.specs.Rounding.{nearest_to};
ghost use Rattle.mass.specs.Units.{units_in, natural};

// The weight of a double's exponent field, and how many exponents that has.
const LEADING: u64 = 0x10_0000_0000_0000;

const EXPONENTS: u64 = 2048;

// Below this exponent field 1,000 × p is under a half: p is less than 2^(1012 - 1023), and 1,000
// is less than 1,024.
const LEAST: u64 = 1012;

// An exponent field e stands for digits × 2^(e - 1075).
const WHOLE: u64 = 1075;

// k × p, where p is at most 10^11: the product of 100 percent and 1,000,000,000 scf/h.
pub(crate) fn round_multiple(k: u64, p: f64) -> u64
    requires few { k ≤ 1000 }
    requires natural { T (natural p) }
    requires small { units_in binary64 p ≤ 100000000000 * 2 ^ 1074 }
    ensures nearest { result ≡ nearest_to (k * units_in binary64 p) (2 ^ 1074) }
{
    let bits = f64::to_bits(p);
    // Only a zero has a sign here, which the remainder leaves out.
    let exponent = bits / LEADING % EXPONENTS;
    if exponent < LEAST {
        return 0;
    }
    let digits = LEADING + bits % LEADING;
    round_fraction(k * digits, 1u64 << (WHOLE - exponent))
}

// n / d.
pub(crate) fn round_fraction(n: u64, d: u64) -> u64
    requires room { n < 2 ^ 63 }
    requires some { 0 < d }
    ensures nearest { result ≡ nearest_to n d }
{
    round_mixed(n / d, n % d, d)
}

// a × b / d, where 64 bits may not hold a × b: as often as d goes into b, a is taken whole, and what is left
// of b makes a product that they hold. A division of 32 bits takes a processor less than one of 64.
pub(crate) fn round_product(a: u64, b: u32, d: u32) -> u64
    requires some { 0 < d }
    requires room { a * d < 2 ^ 63 }
    requires small { a * b < 2 ^ 63 * d }
    ensures nearest { result ≡ nearest_to (a * b) d }
{
    let whole = a * (b / d) as u64;
    let left = a * (b % d) as u64;
    let divisor = d as u64;
    round_mixed(whole + left / divisor, left % divisor, divisor)
}

// q and r / d, as it is taught: hold the remainder against half of the divisor, both doubled so that an odd
// divisor has a half too. Just half goes up where the quotient is odd, so that it becomes even. With these in one
// test the compiler makes no jumps; one on whether a remainder is above half would be foreseen half of the time.
fn round_mixed(q: u64, r: u64, d: u64) -> u64
    requires room { (q < 2 ^ 63) × (r < 2 ^ 63) }
    requires proper { r < d }
    ensures nearest { result ≡ nearest_to (q * d + r) d }
{
    let odd = q % 2;
    if d < 2 * r + odd {
        return q + 1;
    }
    q
}
