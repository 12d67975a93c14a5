ghost use Rattle.model.specs.declared.fault.Fault.TheVariants.{TooManyPeers};
ghost use Rattle.std.specs.Prelude.{◌≡◌};

use model::Fault;
use rolls::RollFault;

// There is no place for the records of all peers.
#[derive(Clone, Copy, Debug, PartialEq, Eq)]
pub struct PeersFull;

// A roll that answers full has no place for a peer.
impl From<RollFault> for PeersFull {
    fn from(_fault: RollFault) -> PeersFull {
        PeersFull
    }
}

// Want of a place for a peer of a new set, as the directory's refusal.
impl From<PeersFull> for Fault {
    ghost from_gives = { λ full r. r ≡ TooManyPeers };

    fn from(_full: PeersFull) -> Fault {
        Fault::TooManyPeers
    }
}
