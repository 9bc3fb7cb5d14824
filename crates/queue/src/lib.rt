// Several plants on one tablet: a queue of 16 slots, each holding the records left of one book. It
// knows no book's bytes and no checkpoint. Nothing here asks anything of its caller.
#![tactic(auto)]

pub mod books;
pub mod reply;
pub mod round;
pub mod slots;
