#![tactic(auto)]

// Up to 64 keys in a row, held without asking for memory.
mod key_list;

pub use key_list::{Iter, KeyList};
