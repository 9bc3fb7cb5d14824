// A budget, read from an argument.
ghost use Rattle.std.specs.Prelude.{◌≡◌};
ghost use Rattle.text.specs.Budget.{budget_in};

const HIGHEST: u64 = 4294967295;

// The number that the word says; none, if it is no decimal number of 32 bits. The `parse` of std also takes
// a sign.
pub fn read(word: &[u8]) -> Option<u32>
    ensures budget { result ≡ budget_in word.now }
{
    if word.is_empty() {
        return None;
    }
    let mut v: u64 = 0;
    for b in word {
        if !b.is_ascii_digit() {
            return None;
        }
        v = v * 10 + (b - b'0') as u64;
        // More digits only make it greater, and it must not outgrow 64 bits.
        if HIGHEST < v {
            return None;
        }
    }
    Some(v as u32)
}
