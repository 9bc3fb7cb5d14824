// Little-endian numbers and 32-byte lines in a slice of bytes.
ghost use Rattle.std.specs.Prelude.{◌≡◌, ℕ, ◌+◌, ◌-◌, ◌/◌, ◌^◌, ◌<◌, ◌≤◌, [], length, ◌==◌, slice_index_or};
ghost use Rattle.rules.specs.Bytes as spec;

// The number of the n bytes from `at` on. The widths of a field are written out, since the compiler
// makes one load of such a sum before it looks at a caller; of a loop's bytes it makes tests of each.
pub fn read_word(s: &[u8], at: usize, n: usize) -> u64
    requires within { at + n ≤ length s.now }
    requires few { n ≤ 8 }
    ensures value { result ≡ spec.word s.now at n }
    ensures below { result < 256 ^ n }
{
    if n == 4 {
        return read_four(s, at);
    }
    if n == 2 {
        return read_two(s, at);
    }
    if n == 8 {
        return read_eight(s, at);
    }
    read_bytes(s, at, n)
}

fn read_bytes(s: &[u8], at: usize, n: usize) -> u64
    requires within { at + n ≤ length s.now }
    requires few { n ≤ 8 }
    ensures value { (result ≡ spec.word s.now at n) × (result < 256 ^ n) }
{
    let mut v: u64 = 0;
    for i in (0..n).rev() {
        v = v * 256 + widen(s[at + i]);
    }
    v
}

fn read_eight(s: &[u8], at: usize) -> u64
    requires within { at + 8 ≤ length s.now }
    ensures value { (result ≡ spec.word s.now at 8) × (result < 256 ^ 8) }
{
    let low = read_four(s, at);
    let high = read_four(s, at + 4);
    low + 4294967296 * high
}

fn read_four(s: &[u8], at: usize) -> u64
    requires within { at + 4 ≤ length s.now }
    ensures value { (result ≡ spec.word s.now at 4) × (result < 256 ^ 4) }
{
    let low = read_two(s, at);
    let high = read_two(s, at + 2);
    low + 65536 * high
}

fn read_two(s: &[u8], at: usize) -> u64
    requires within { at + 2 ≤ length s.now }
    ensures value { (result ≡ spec.word s.now at 2) × (result < 256 ^ 2) }
{
    let low = widen(s[at]);
    let high = widen(s[at + 1]);
    low + 256 * high
}

pub(crate) fn widen(x: u8) -> u64
    ensures same { (result ≡ x) × (result < 256) }
{
    x as u64
}

// Whether the bytes from `from` up to `to` are 0. Those that don't make eight are read first, then eight
// at a time: of a row between constants these loads are left, and one test.
pub fn are_zero(s: &[u8], from: usize, to: usize) -> bool
    requires within { (from ≤ to) × (to ≤ length s.now) }
    ensures zeros { result ≡ spec.zeros s.now from (to - from) }
{
    let start = from + (to - from) % 8;
    let mut seen = gather_few(s, from, start);
    for at in (start..to).step_by(8) {
        seen |= read_word(s, at, 8);
    }
    seen == 0
}

// A number that is 0 exactly if the bytes are, of which there are fewer than eight.
fn gather_few(s: &[u8], from: usize, to: usize) -> u64
    requires within { (from ≤ to) × (to ≤ length s.now) }
    requires few { to - from < 8 }
    ensures zeros { (result == 0) ≡ spec.zeros s.now from (to - from) }
{
    if to - from < 4 {
        return read_word(s, from, to - from);
    }
    let at = from + 4;
    read_word(s, from, 4) | read_word(s, at, to - at)
}

// A line of a book.
pub(crate) type Line = [u8; 32];

// The lines of a part that holds whole lines.
pub(crate) fn take_lines(s: &[u8]) -> &[Line]
    ensures count { length result.now ≡ length s.now / 32 }
    ensures each { (k : ℕ) → k < length s.now / 32 → slice_index_or result.now k [] ≡ spec.line k s.now }
{
    let (lines, _) = s.as_chunks::<32>();
    lines
}

// Line k of a part that holds whole lines.
pub(crate) fn take_line(s: &[u8], k: usize) -> &Line
    requires there { k < length s.now / 32 }
    ensures line { result.now ≡ spec.line k s.now }
{
    &take_lines(s)[k]
}
