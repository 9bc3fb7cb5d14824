// Whether a refusal is told.
ghost use Rattle.std.specs.Prelude.{◌≡◌};
ghost use Rattle.text.specs.Refusal.{has_refusal};

// Whether a line of the text is that of a refusal.
pub fn is_told(text: &[u8]) -> bool
    ensures told { result ≡ has_refusal text.now }
{
    let mut is_first = true;
    for (i, b) in text.iter().enumerate() {
        if is_first && text[i..].starts_with(b"refused ") {
            return true;
        }
        is_first = *b == b'\n';
    }
    false
}
