#![tactic(auto)]

// Rolls: tables of places that hold keys.
mod fault;
mod roll;

pub use fault::RollFault;
pub use roll::Roll;
