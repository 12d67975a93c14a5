ghost use Rattle.std.specs.Prelude.{◌≡◌, ◌≤◌, [], ◌∷◌, ◌++◌, map, length};
ghost use Rattle.std.specs.Option.{option_map};
ghost use Rattle.std.specs.List.{slice_get};
ghost use Rattle.model.specs.Questions.{drawn_set};
ghost use Rattle.model.specs.Sets.{newest as newest_of, set_at, is_held};
ghost use Rattle.model.specs.There.{marked_first_all};
ghost use Rattle.arrayvec.specs.ArrayVec.{array_vec_len};
ghost use Rattle.peer_sets.specs.Held.{set_of, held, kept, leaving};

use super::{MOST_SETS, PLACES, PeerSets};
use crate::in_order;
use crate::peer_set::PeerSet;
use arrayvec::ArrayVec;
use keys::OrderedKey;

// Sets the bit of a key in each of the sets that has it among its primaries.
fn mark_each<K: OrderedKey>(sets: &mut [PeerSet<K>], key: &K, known: bool)
    requires { length sets.old ≤ 9 }
    ensures { map set_of sets.new ≡ marked_first_all K.OrderedKey.order key.now known (map set_of sets.old) }
{
    for set in sets.iter_mut() {
        set.update(key, known);
    }
}

// Puts a set behind the others. If they are then more than `most`, or more than eight, the first
// one is taken out and answered.
fn put_behind<K: OrderedKey>(
    sets: &mut ArrayVec<PeerSet<K>, PLACES>,
    set: PeerSet<K>,
    most: u64,
) -> Option<PeerSet<K>>
    requires { array_vec_len sets.old ≤ 8 }
    ensures few { array_vec_len sets.new ≤ 8 }
    ensures stay { most ≤ 8 → map set_of sets.new.items ≡ kept most (map set_of sets.old.items ++ set_of set ∷ []) }
    ensures oldest { most ≤ 8 → option_map set_of result ≡ leaving most (map set_of sets.old.items ++ set_of set ∷ []) }
{
    sets.push(set);
    if sets.len() as u64 <= most.min(MOST_SETS as u64) {
        return None;
    }
    Some(sets.remove(0))
}

impl<K: OrderedKey> PeerSets<K> {
    // No set is held yet.
    pub fn new() -> Self
        ensures { held result ≡ [] }
    {
        PeerSets {
            sets: ArrayVec::new(),
        }
    }

    // How many sets are held.
    pub fn len(&self) -> usize
        ensures all { result ≡ length (held self.now) }
        ensures few { result ≤ 8 }
    {
        in_order::count(&self.sets)
    }

    // The index of the newest set, or none while no set is held.
    pub fn newest(&self) -> Option<u64>
        ensures { result ≡ newest_of (held self.now) }
    {
        in_order::last_index(&self.sets)
    }

    // Whether a set with an index is held.
    pub fn is_held(&self, index: u64) -> bool
        ensures { result ≡ is_held index (held self.now) }
    {
        in_order::any_has(&self.sets, index)
    }

    // The set with an index, or none.
    pub fn get(&self, index: u64) -> Option<PeerSet<K>>
        ensures { option_map set_of result ≡ set_at index (held self.now) }
    {
        in_order::find(&self.sets, index)
    }

    // The set in a place, the oldest in the first, or none past the last.
    pub fn at(&self, i: usize) -> Option<PeerSet<K>>
        ensures { option_map set_of result ≡ slice_get (held self.now) i }
    {
        in_order::read(&self.sets, i)
    }

    // The set of a draw, or none while no set is held.
    pub fn drawn(&self, draw: u64) -> Option<PeerSet<K>>
        ensures { option_map set_of result ≡ drawn_set draw (held self.now) }
    {
        in_order::draw_one(&self.sets, draw)
    }

    // Sets whether the information of a peer is known, in every set that has it as a primary.
    pub fn update(&mut self, key: &K, known: bool)
        ensures { held self.new ≡ marked_first_all K.OrderedKey.order key.now known (held self.old) }
    {
        mark_each(&mut self.sets, key, known);
    }

    // Enters a set as the newest. If there are then more than `most`, or more than eight, the oldest
    // leaves and is answered.
    pub fn enter(&mut self, set: PeerSet<K>, most: u64) -> Option<PeerSet<K>>
        ensures stay { most ≤ 8 → held self.new ≡ kept most (held self.old ++ set_of set ∷ []) }
        ensures oldest { most ≤ 8 → option_map set_of result ≡ leaving most (held self.old ++ set_of set ∷ []) }
    {
        put_behind(&mut self.sets, set, most)
    }
}
