ghost use Rattle.std.specs.Prelude.{◌≡◌, length};
ghost use Rattle.std.specs.Int.Digits.{number_from_digits};

// An IPv4 address.
#[derive(Clone, Copy, Debug, PartialEq, Eq)]
pub struct Ipv4Addr {
    // The four octets, in the order in which they are written.
    pub octets: [u8; 4],
    ghost whole: { length octets ≡ 4 },
}

// The number that the octets write, the highest first.
impl From<Ipv4Addr> for u32 {
    ghost from_gives = { λ address n. n ≡ number_from_digits 256 address.octets };

    #[tactic(auto, using(crate::proofs::Numbers::number_of_4))]
    fn from(address: Ipv4Addr) -> u32 {
        u32::from_be_bytes(address.octets)
    }
}
