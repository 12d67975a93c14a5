#![tactic(auto)]

// An ordered set of peers' keys that notes of each whether its information is known.
mod bit_set;
mod fault;

pub use bit_set::BitSet;
pub use fault::BitSetFault;
