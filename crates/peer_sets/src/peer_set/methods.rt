ghost use Rattle.std.specs.Prelude.{◌≡◌, length, is_some};
ghost use Rattle.std.specs.List.{slice_get};
ghost use Rattle.key_list.specs.Keys.{has};
ghost use Rattle.key_list.specs.Members.{keys_in};
ghost use Rattle.model.specs.Sets.{primaries};
ghost use Rattle.model.specs.Track.{is_member};
ghost use Rattle.peer_sets.specs.Held.{set_of, IsBlank, can_make, Made, marked_at, marked_set, Carried};

use super::PeerSet;
use crate::primaries;
use key_list::KeyList;
use keys::OrderedKey;
use std::alloc::AllocError;
use types::BitVec;

impl<K: OrderedKey> PeerSet<K> {
    // A set of these primaries, of which none is known, and of those secondaries that are no
    // primaries. None exactly if the primaries do not ascend or are more than 64, or if those
    // secondaries are more than 64.
    pub fn new(index: u64, primary: &[K], secondary: &[K]) -> Option<PeerSet<K>>
        ensures test { is_some result ≡ can_make K.OrderedKey.order primary.now secondary.now }
        ensures made { Made K.OrderedKey.order index primary.now secondary.now result }
    {
        let primary = primaries::unmarked(primary)?;
        let secondary = primaries::apart(secondary, &primary)?;
        Some(PeerSet {
            index,
            primary,
            secondary,
        })
    }

    // The number by which peers know the set.
    pub fn index(&self) -> u64
        ensures { result ≡ (set_of self.now).index }
    {
        self.index
    }

    // How many primaries there are.
    pub fn primary_len(&self) -> usize
        ensures { result ≡ length (set_of self.now).primary }
    {
        self.primary.len()
    }

    // The primary at an index, or none past the last.
    pub fn primary_at(&self, i: usize) -> Option<K>
        ensures { result ≡ slice_get (primaries (set_of self.now).primary) i }
    {
        primaries::key_of(&self.primary, i)
    }

    // How many secondaries there are.
    pub fn secondary_len(&self) -> usize
        ensures { result ≡ length (set_of self.now).secondary }
    {
        self.secondary.len()
    }

    // The secondary at an index, or none past the last.
    pub fn secondary_at(&self, i: usize) -> Option<K>
        ensures { result ≡ slice_get (set_of self.now).secondary i }
    {
        self.secondary.key_at(i)
    }

    // The primaries, in key order.
    pub fn primaries(&self) -> KeyList<K>
        ensures { keys_in result ≡ primaries (set_of self.now).primary }
    {
        primaries::keys_of(&self.primary)
    }

    // The secondaries, in key order.
    pub fn secondaries(&self) -> KeyList<K>
        ensures { keys_in result ≡ (set_of self.now).secondary }
    {
        self.secondary
    }

    // Whether a key is among the primaries.
    pub fn is_primary(&self, key: &K) -> bool
        ensures { result ≡ has K.OrderedKey.order key.now (primaries (set_of self.now).primary) }
    {
        primaries::has_key(&self.primary, key)
    }

    // Whether a key is among the primaries or the secondaries.
    pub fn is_member(&self, key: &K) -> bool
        ensures { result ≡ is_member K.OrderedKey.order (set_of self.now) key.now }
    {
        self.is_primary(key) || self.secondary.has(key)
    }

    // Sets whether the information of the primary at an index is known. Past the last primary
    // nothing changes.
    pub fn mark_at(&mut self, i: usize, known: bool)
        ensures { set_of self.new ≡ marked_at i known (set_of self.old) }
    {
        let _ = self.primary.update_at(i, known);
    }

    // Sets whether the information of a peer is known, if it is a primary.
    pub fn update(&mut self, key: &K, known: bool)
        ensures { set_of self.new ≡ marked_set K.OrderedKey.order key.now known (set_of self.old) }
    {
        primaries::mark(&mut self.primary, key, known);
    }

    // The bits of the primaries, under the set's index.
    pub fn knowledge(&self) -> BitVec
        ensures { Carried (set_of self.now).index (set_of self.now).primary result }
    {
        primaries::bits_of(&self.primary, self.index)
    }
}

// A set with no members.
impl<K: OrderedKey> Default for PeerSet<K> {
    ghost is_default = { IsBlank };

    fn default() -> Self {
        PeerSet {
            index: 0,
            primary: primaries::none(),
            secondary: KeyList::new(),
        }
    }
}

// A copy of a set is the set itself.
impl<K: Copy> Clone for PeerSet<K> {
    ghost is_clone = { λ x y. y ≡ x };

    ghost is_infallible = { λ _. Unit {0} };

    // The same set; it never fails.
    fn clone(&self) -> Result<PeerSet<K>, AllocError> {
        Ok(*self)
    }
}
