ghost use Rattle.std.specs.Prelude.{◌≡◌, Some};
ghost use Rattle.ip_addr.specs.Registry.{lies_in, bars, or_longer};

use crate::address_bits::AddressBits;
use crate::global::Global;

// A block of addresses, and what a special-purpose registry says of it.
#[derive(Clone, Copy, Debug, PartialEq, Eq)]
pub struct Block {
    // The first address of the block, as a number.
    pub base: u128,
    // How many bits at the front all addresses of the block share.
    pub prefix: u8,
    // What the column "Global" says of the block.
    pub global: Global,
}

impl Block {
    // Whether an address lies in the block.
    #[tactic(auto, using(crate::proofs::Registries::all_agree))]
    pub(crate) fn contains(&self, address: AddressBits) -> bool
        ensures { result ≡ lies_in address.width self.now address.number }
    {
        let Block { base, prefix, .. } = *self;
        let rest = address.width.saturating_sub(prefix);
        rest >= 128 || address.number >> rest == base >> rest
    }

    // Whether the block keeps an address from being global.
    pub(crate) fn bars(&self, address: AddressBits) -> bool
        ensures { result ≡ bars address.width self.now address.number }
    {
        self.contains(address) && !self.global.is_true()
    }

    // The other block if its prefix is longer, or else this one.
    pub(crate) fn or_longer(self, other: Block) -> Block
        ensures { result ≡ or_longer self (Some other) }
    {
        if other.prefix > self.prefix {
            other
        } else {
            self
        }
    }
}
