use bit_set::BitSet;
use key_list::KeyList;

pub mod methods;

// A set of peers: the primaries, of which it notes whether their information is known, and the
// secondaries.
pub struct PeerSet<K> {
    // The number by which peers know the set.
    pub(crate) index: u64,
    // The primaries in ascending order, with a bit for each.
    primary: BitSet<K>,
    // The secondaries, none of which is a primary.
    secondary: KeyList<K>,
}

// A set is copied as a whole.
impl<K: Copy> Copy for PeerSet<K> {}
