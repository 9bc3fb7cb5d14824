// The words that the program was started with, its own name among them.
use std::env::FillError;
use std::rt::Env;

// How many there are.
pub fn count<R: Env>(rt: &R) -> usize {
    (0..usize::MAX)
        .find(|i| !is_there(rt, *i))
        .unwrap_or(usize::MAX)
}

// A word that isn't empty is there, though there is no room for it.
fn is_there<R: Env>(rt: &R, i: usize) -> bool {
    !matches!(rt.arg(i, &mut []), Err(FillError::NotPresent))
}
