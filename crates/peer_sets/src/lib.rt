#![tactic(auto)]

// The sets of peers that a directory holds, oldest first.
mod in_order;
mod peer_set;
mod peer_sets;
mod primaries;

pub use peer_set::PeerSet;
pub use peer_sets::PeerSets;
