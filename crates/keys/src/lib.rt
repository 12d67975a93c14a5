#![tactic(auto)]

// The keys by which peers are known: what every kind of key can do, and two kinds of them.
mod bytes;
mod hashed_key;
mod key;
mod ordered_key;
mod seat_number;
mod station_key;

pub use bytes::fnv_1a;
pub use hashed_key::HashedKey;
pub use key::Key;
pub use ordered_key::{OrderedKey, is_ascending};
pub use seat_number::SeatNumber;
pub use station_key::StationKey;
