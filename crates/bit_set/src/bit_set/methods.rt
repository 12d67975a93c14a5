ghost use Rattle.std.specs.Prelude.{◌≡◌, ◌≤◌, length, is_some, nat_lt};
ghost use Rattle.keys.specs.Order.{is_equal};
ghost use Rattle.types.specs.Bits.{bit_at};
ghost use Rattle.key_list.specs.Members.{keys_in as listed};
ghost use Rattle.bit_set.specs.Places.{key_at as held_at, place_of, Found, Held};
ghost use Rattle.bit_set.specs.Members.{keys_in, bits_in, members, Made, Marked, Updated, Carried};

use super::BitSet;
use crate::fault::BitSetFault;
use key_list::KeyList;
use keys::{OrderedKey, is_ascending};
use std::alloc::AllocError;
use types::BitVec;

impl<K: OrderedKey> BitSet<K> {
    // A set of these keys, of which none is known yet. Refused if they are more than 64, or else if
    // some key is not below the next.
    pub fn new(keys: &[K]) -> Result<BitSet<K>, BitSetFault>
        ensures { Made K.OrderedKey.order keys.now result }
    {
        let list = KeyList::of(keys).ok_or(BitSetFault::TooMany)?;
        let knowledge = BitVec::new(0, list.len() as u64).ok_or(BitSetFault::TooMany)?;
        if !is_ascending(keys) {
            return Err(BitSetFault::NotAscending);
        }
        Ok(BitSet {
            keys: list,
            knowledge,
        })
    }

    // How many keys the set has.
    pub fn len(&self) -> usize
        ensures keys { result ≡ length (keys_in self.now) }
        ensures members { result ≡ length (members self.now) }
    {
        self.keys.len()
    }

    // The keys, in their order.
    pub fn keys(&self) -> KeyList<K>
        ensures { listed result ≡ keys_in self.now }
    {
        self.keys
    }

    // The key at an index, or none past the last.
    pub fn key_at(&self, index: usize) -> Option<K>
        ensures value { result ≡ held_at (keys_in self.now) index }
        ensures there { is_some result ≡ nat_lt index (length (keys_in self.now)) }
    {
        self.keys.key_at(index)
    }

    // The index of a key, or none exactly if the set has not that key.
    pub fn position(&self, key: &K) -> Option<usize>
        ensures value { result ≡ place_of K.OrderedKey.order key.now 0 (keys_in self.now) }
        ensures found { Found (keys_in self.now) key.now result }
    {
        self.keys.iter().position(
            |held| -> bool
                ensures { result ≡ is_equal (K.OrderedKey.order held key.entry.now) }
            { held.is_same(key) },
        )
    }

    // Whether the information of the peer at an index is known, or none past the last key.
    pub fn is_known(&self, index: usize) -> Option<bool>
        ensures value { result ≡ bit_at (bits_in self.now) index }
        ensures there { is_some result ≡ nat_lt index (length (keys_in self.now)) }
    {
        self.knowledge.get(index as u64)
    }

    // Sets whether the information of the peer with a key is known, and answers whether the set has
    // that key. Where it has not, nothing changes.
    pub fn update(&mut self, key: &K, known: bool) -> bool
        ensures written { Updated self.old self.new (place_of K.OrderedKey.order key.now 0 (keys_in self.old)) known result }
        ensures held { Held (keys_in self.old) key.now result }
        ensures keys { keys_in self.new ≡ keys_in self.old }
    {
        match self.position(key) {
            Some(index) => self.update_at(index, known),
            None => false,
        }
    }

    // Sets whether the information of the peer at an index is known, and answers whether there is a
    // key. Past the last key nothing changes.
    pub fn update_at(&mut self, index: usize, known: bool) -> bool
        ensures there { result ≡ nat_lt index (length (keys_in self.old)) }
        ensures written { Marked self.old self.new index known }
        ensures past { length (keys_in self.old) ≤ index → self.new ≡ self.old }
        ensures keys { keys_in self.new ≡ keys_in self.old }
    {
        if index >= self.len() {
            return false;
        }
        self.mark(index, known);
        true
    }

    // Sets the bit of the key at an index. Past the last key no bit changes.
    fn mark(&mut self, index: usize, known: bool)
        ensures { Marked self.old self.new index known }
    {
        self.knowledge.set(index as u64, known);
    }

    // The bits of the set, under the index that its receivers know the set by.
    pub fn knowledge(&self, index: u64) -> BitVec
        ensures { Carried self.now index result }
    {
        BitVec {
            index,
            len: self.knowledge.len,
            bytes: self.knowledge.bytes,
        }
    }
}

// A copy of a set is the set itself.
impl<K: Copy> Clone for BitSet<K> {
    ghost is_clone = { λ x y. y ≡ x };

    ghost is_infallible = { λ _. Unit {0} };

    // The same set; it never fails.
    fn clone(&self) -> Result<BitSet<K>, AllocError> {
        Ok(*self)
    }
}
