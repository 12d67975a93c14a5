#![tactic(auto)]

// IP addresses, and which of them are global by the special-purpose registries of RFC 6890.
mod address_bits;
mod block;
mod global;
mod ip_addr;
mod ipv4_addr;
mod ipv6_addr;
mod registry;
mod v4_registry;
mod v6_registry;

pub use block::Block;
pub use global::Global;
pub use ip_addr::IpAddr;
pub use ipv4_addr::Ipv4Addr;
pub use ipv6_addr::Ipv6Addr;
pub use v4_registry::v4_blocks;
pub use v6_registry::v6_blocks;
