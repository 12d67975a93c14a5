#![tactic(auto)]

// What a directory means: its state, and what each call answers and leaves.
mod config;
mod fault;

pub use config::Config;
pub use fault::Fault;
