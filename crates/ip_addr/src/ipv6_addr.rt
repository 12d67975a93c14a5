ghost use Rattle.std.specs.Prelude.{◌≡◌, length};
ghost use Rattle.std.specs.Int.Digits.{number_from_digits};

// An IPv6 address.
#[derive(Clone, Copy, Debug, PartialEq, Eq)]
pub struct Ipv6Addr {
    // The sixteen octets, in the order in which they are written.
    pub octets: [u8; 16],
    ghost whole: { length octets ≡ 16 },
}

// The number that the octets write, the highest first.
impl From<Ipv6Addr> for u128 {
    ghost from_gives = { λ address n. n ≡ number_from_digits 256 address.octets };

    #[tactic(auto, using(crate::proofs::Numbers::number_of_16))]
    fn from(address: Ipv6Addr) -> u128 {
        u128::from_be_bytes(address.octets)
    }
}
