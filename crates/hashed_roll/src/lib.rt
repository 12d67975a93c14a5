#![tactic(auto)]

// A roll for keys that have a hash: a key is looked up from the slot that its hash names.
mod hashed_roll;
mod slot;

pub use hashed_roll::HashedRoll;
