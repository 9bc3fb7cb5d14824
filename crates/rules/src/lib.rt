// The rules of a book: whether it is sound, and what becomes of each record. It knows no checkpoint.
#![tactic(auto)]

pub mod book;
pub mod bytes;
pub mod entry;
pub mod factors;
mod field;
mod form;
pub mod hints;
pub mod index;
mod listed;
mod listing;
mod method;
mod range;
pub mod reader;
pub mod record;
mod repeat;
pub mod sorting;
pub mod table;
mod trailer;
pub mod weighing;
