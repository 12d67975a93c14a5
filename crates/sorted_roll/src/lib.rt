#![tactic(auto)]

// A roll that finds its keys by bisection.
mod sorted_roll;

pub use sorted_roll::SortedRoll;
