ghost use Rattle.std.specs.Prelude.{◌≡◌};
ghost use Rattle.ip_addr.specs.Registry.{is_barred, blocks_around, longest};

use crate::address_bits::AddressBits;
use crate::block::Block;

// Whether one of the blocks keeps an address from being global.
pub(crate) fn is_barred(blocks: &[Block], address: AddressBits) -> bool
    ensures { result ≡ is_barred address.width address.number blocks.now }
{
    blocks.iter().any(|block| block.bars(address))
}

// Of the blocks in which an address lies, the one with the longest prefix.
#[tactic(auto, using(crate::proofs::Registries::longest_is))]
pub(crate) fn longest(blocks: &[Block], address: AddressBits) -> Option<Block>
    ensures { result ≡ longest (blocks_around address.width address.number blocks.now) }
{
    blocks
        .iter()
        .copied()
        .filter(|block| block.contains(address))
        .reduce(Block::or_longer)
}
