#![tactic(auto)]

// What a directory knows of one peer.
mod address;
mod dialing;
mod fault;
mod record;
mod role;
mod status;

pub use address::Address;
pub use dialing::{DialStatus, ReserveResult};
pub use fault::RecordFault;
pub use record::Record;
pub use role::Role;
pub use status::Status;
