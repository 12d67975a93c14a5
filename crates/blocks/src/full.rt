ghost use Rattle.std.specs.Prelude.{◌≡◌};
ghost use Rattle.model.specs.declared.fault.Fault.TheVariants.{TooManyBlocks};

use model::Fault;
use rolls::RollFault;

// There is no place for another block.
#[derive(Clone, Copy, Debug, PartialEq, Eq)]
pub struct BlocksFull;

// A roll that answers full has no place for the block.
impl From<RollFault> for BlocksFull {
    fn from(_fault: RollFault) -> BlocksFull {
        BlocksFull
    }
}

// Want of a place for a block, as the directory's refusal.
impl From<BlocksFull> for Fault {
    ghost from_gives = { λ full r. r ≡ TooManyBlocks };

    fn from(_full: BlocksFull) -> Fault {
        Fault::TooManyBlocks
    }
}
