// Runs of bytes, cut at a byte.
ghost use Rattle.std.specs.Prelude.{◌≡◌, true, false, MatchOption};
ghost use Rattle.roster.specs.Bytes.{front, rest};
ghost use Rattle.roster.specs.Search.{has};

// What stands before the first b, and what stands after it.
pub(crate) fn split_once(bytes: &[u8], b: u8) -> Option<(&[u8], &[u8])>
    ensures cut { MatchOption result (has b bytes.now ≡ false) (λ p. (has b bytes.now ≡ true) × (p.0.now ≡ front b bytes.now) × (p.1.now ≡ rest b bytes.now)) }
{
    let n = bytes.iter().position(|x| *x == b)?;
    Some((&bytes[..n], &bytes[n + 1..]))
}
