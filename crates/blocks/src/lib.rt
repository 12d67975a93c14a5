#![tactic(auto)]

// The peers that are blocked, and until when.
mod blocks;
mod full;

pub use blocks::Blocks;
pub use full::BlocksFull;
