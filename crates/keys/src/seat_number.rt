ghost use Rattle.std.specs.Prelude.{◌^◌, ◌<◌};

pub mod traits;

// The number of a seat in a cabinet, for tests and for sheets written by hand.
#[derive(Clone, Copy, Debug, PartialEq, Eq, PartialOrd, Ord)]
pub struct SeatNumber {
    pub number: u64,
    ghost small: { number < 2 ^ 64 },
}
