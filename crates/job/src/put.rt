// Numbers put into a buffer, little-endian.
ghost use Rattle.std.specs.Prelude.{◌++◌, ◌≡◌, ◌+◌, ◌≤◌, length, take, drop};
ghost use Rattle.rules.specs.Bytes.{bytes_of};

// v goes in the 8 bytes from `at` on.
pub(crate) fn put(out: &mut [u8], at: usize, v: u64)
    requires within { at + 8 ≤ length out.old }
    ensures put { out.new ≡ take at out.old ++ bytes_of 8 v ++ drop (at + 8) out.old }
{
    out[at..at + 8].copy_from_slice(&v.to_le_bytes());
}
