ghost use Rattle.std.specs.Prelude.{◌≤◌};
ghost use Rattle.arrayvec.specs.ArrayVec.{array_vec_len};

use crate::peer_set::PeerSet;
use arrayvec::ArrayVec;

pub mod methods;

// How many sets are held at most.
const MOST_SETS: usize = 8;

// One place more than that, for a set that is entered before the oldest leaves.
const PLACES: usize = 9;

// The sets held, oldest first.
#[derive(Drop)]
pub struct PeerSets<K: Copy> {
    // The sets, in the order in which they were entered.
    sets: ArrayVec<PeerSet<K>, PLACES>,
    // At most eight are held.
    ghost few: { array_vec_len sets ≤ 8 },
}
