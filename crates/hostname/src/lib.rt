#![tactic(auto)]

// Names of hosts, held as bytes, and the test whether such a name is well formed.
mod hostname;
mod label;
mod malformed_host;

pub use hostname::Hostname;
pub use malformed_host::MalformedHost;
