ghost use Rattle.std.specs.Prelude.{◌≡◌, length};

pub mod traits;

// The public key of a metering station.
#[derive(Clone, Copy, Debug, PartialEq, Eq, PartialOrd, Ord)]
pub struct StationKey {
    pub bytes: [u8; 32],
    ghost whole: { length bytes ≡ 32 },
}
