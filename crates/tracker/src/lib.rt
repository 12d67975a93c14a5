#![tactic(auto)]

// The directory of a discovery tracker: which peers there are, where to reach them, which links to close.
mod directory;
mod ingress;
mod metadata;
mod reservation;

pub use directory::Directory;
pub use ingress::Message;
pub use metadata::Metadata;
pub use reservation::{Connection, Reservation};
