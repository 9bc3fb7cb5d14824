// Lists of plants as text: a list gets a verdict, and the place in the round is kept in a text and found again.
// Slices in, slices and numbers out. Nothing here asks anything of its caller.
#![tactic(auto)]

mod bytes;
pub mod lines;
pub mod mistake;
pub mod place;
pub mod plants;
