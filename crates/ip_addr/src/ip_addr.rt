ghost use Rattle.std.specs.Prelude.{◌≡◌};
ghost use Rattle.ip_addr.specs.Addresses.{width_of, number_of, table_of, is_global, most_specific, MostSpecific, same_ip};

use crate::address_bits::AddressBits;
use crate::block::Block;
use crate::ipv4_addr::Ipv4Addr;
use crate::ipv6_addr::Ipv6Addr;
use crate::registry::{is_barred, longest};
use crate::v4_registry::v4_blocks;
use crate::v6_registry::v6_blocks;

// An IP address of either kind.
#[derive(Clone, Copy, Debug, PartialEq, Eq)]
pub enum IpAddr {
    // An address of 32 bits.
    V4(Ipv4Addr),
    // An address of 128 bits.
    V6(Ipv6Addr),
}

impl IpAddr {
    // Whether the address is global: it lies in no special-purpose block whose entry "Global" is
    // not True.
    pub fn is_global(&self) -> bool
        ensures { result ≡ is_global self.now }
    {
        !is_barred(self.blocks(), self.bits())
    }

    // Of the special-purpose blocks in which the address lies, the one with the longest prefix.
    #[tactic(auto, using(crate::proofs::Longest::most_specific_is))]
    pub fn most_specific(&self) -> Option<Block>
        ensures answer { result ≡ most_specific self.now }
        ensures longest { MostSpecific self.now result }
    {
        longest(self.blocks(), self.bits())
    }

    // Whether both addresses are of one kind and have the same octets.
    pub fn is_same(&self, other: &IpAddr) -> bool
        ensures { result ≡ same_ip self.now other.now }
    {
        self == other
    }

    // The address as a number of so many bits.
    fn bits(&self) -> AddressBits
        ensures width { result.width ≡ width_of self.now }
        ensures number { result.number ≡ number_of self.now }
    {
        match self {
            IpAddr::V4(address) => AddressBits {
                width: 32,
                number: u32::from(*address).into(),
            },
            IpAddr::V6(address) => AddressBits {
                width: 128,
                number: u128::from(*address),
            },
        }
    }

    // The special-purpose blocks of this kind of address.
    fn blocks(&self) -> &'static [Block]
        ensures { result.now ≡ table_of self.now }
    {
        match self {
            IpAddr::V4(_) => v4_blocks(),
            IpAddr::V6(_) => v6_blocks(),
        }
    }
}
