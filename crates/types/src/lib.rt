#![tactic(auto)]

// The values that records and gossip are made of.
mod bit_vec;
mod info;
mod ingress;
mod moment;
mod socket_addr;
mod span;
mod times;

pub use bit_vec::BitVec;
pub use info::Info;
pub use ingress::Ingress;
pub use moment::Moment;
pub use socket_addr::SocketAddr;
pub use span::Span;
pub use times::earliest;
