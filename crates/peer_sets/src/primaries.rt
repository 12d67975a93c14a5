ghost use Rattle.std.specs.Prelude.{◌≡◌, []};
ghost use Rattle.std.specs.List.{slice_get};
ghost use Rattle.key_list.specs.Keys.{has, without};
ghost use Rattle.key_list.specs.Members.{keys_in, Made as Listed};
ghost use Rattle.bit_set.specs.Members.{members};
ghost use Rattle.model.specs.Sets.{primaries};
ghost use Rattle.model.specs.There.{marked_first};
ghost use Rattle.peer_sets.specs.Held.{Unmarked, Carried};

use bit_set::BitSet;
use key_list::KeyList;
use keys::OrderedKey;
use types::BitVec;

// The primaries of a new set, of which none is known; none if they do not ascend or are more than 64.
pub(crate) fn unmarked<K: OrderedKey>(keys: &[K]) -> Option<BitSet<K>>
    ensures { Unmarked K.OrderedKey.order keys.now result }
{
    BitSet::new(keys).ok()
}

// No primaries at all.
pub(crate) fn none<K: OrderedKey>() -> BitSet<K>
    ensures { members result ≡ [] }
{
    match BitSet::new(&[]) {
        Ok(primary) => primary,
        Err(_) => unreachable(),
    }
}

// The keys that are no primaries, in their order; none if they are more than 64.
pub(crate) fn apart<K: OrderedKey>(keys: &[K], primary: &BitSet<K>) -> Option<KeyList<K>>
    ensures { Listed (without K.OrderedKey.order keys.now (primaries (members primary.now))) result }
{
    let mut apart = KeyList::new();
    for key in keys {
        if has_key(primary, key) {
            continue;
        }
        if !apart.push(*key) {
            return None;
        }
    }
    Some(apart)
}

// The keys of the primaries, in their order.
pub(crate) fn keys_of<K: OrderedKey>(primary: &BitSet<K>) -> KeyList<K>
    ensures { keys_in result ≡ primaries (members primary.now) }
{
    primary.keys()
}

// The primary at an index, or none past the last.
pub(crate) fn key_of<K: OrderedKey>(primary: &BitSet<K>, index: usize) -> Option<K>
    ensures { result ≡ slice_get (primaries (members primary.now)) index }
{
    primary.key_at(index)
}

// Whether a key is among the primaries.
pub(crate) fn has_key<K: OrderedKey>(primary: &BitSet<K>, key: &K) -> bool
    ensures { result ≡ has K.OrderedKey.order key.now (primaries (members primary.now)) }
{
    primary.position(key).is_some()
}

// Sets the bit of a key, if it is among the primaries.
pub(crate) fn mark<K: OrderedKey>(primary: &mut BitSet<K>, key: &K, known: bool)
    ensures { members primary.new ≡ marked_first K.OrderedKey.order key.now known (members primary.old) }
{
    let _ = primary.update(key, known);
}

// The bits of the primaries, under the index of their set.
pub(crate) fn bits_of<K: OrderedKey>(primary: &BitSet<K>, index: u64) -> BitVec
    ensures { Carried index (members primary.now) result }
{
    primary.knowledge(index)
}
