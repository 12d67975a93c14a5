#![tactic(auto)]

// Tables: a roll with a value for each place.
mod table;

pub use table::Table;
