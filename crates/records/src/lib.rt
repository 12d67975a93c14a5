#![tactic(auto)]

// The records of all peers, in a table, and how calls change them.
mod choice;
mod full;
mod rank;
mod records;

pub use choice::Choice;
pub use full::PeersFull;
pub use records::Records;
