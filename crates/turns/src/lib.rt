#![tactic(auto)]

// What a call about one peer makes of that peer's record.
mod turn;
mod turns;

pub use turn::Turn;
pub use turns::{connected, dialled, is_blocked, listened, released};
