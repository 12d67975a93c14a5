ghost use Rattle.std.specs.Prelude.{◌≡◌, ◌+◌, ◌<◌, ◌≤◌, [], ◌∷◌, ◌++◌, length, if◌then◌else◌, nat_le, nat_lt};
ghost use Rattle.std.specs.List.{insert, slice_get};
ghost use Rattle.keys.specs.Order.{is_equal};
ghost use Rattle.key_list.specs.Keys.{has, put_key};
ghost use Rattle.key_list.specs.Places.{keys_of, taken};
ghost use Rattle.key_list.specs.Members.{keys_in, Made, Gap};

use super::iter::Iter;
use super::{KeyList, MOST_KEYS};
use keys::OrderedKey;
use std::alloc::AllocError;
use std::cmp::Ordering;

// Places that have these keys, one after the other from the first place on; the others are empty.
fn placed<K: OrderedKey>(keys: &[K]) -> [Option<K>; MOST_KEYS]
    requires { length keys.now ≤ 64 }
    ensures whole { length result ≡ 64 }
    ensures held { keys_of result ≡ keys.now }
    ensures behind { taken result ≡ length keys.now }
{
    let mut places = [None; MOST_KEYS];
    for (i, key) in keys.iter().enumerate() {
        places[i] = Some(*key);
    }
    places
}

// A list of these keys, which are at most 64.
fn listed<K: OrderedKey>(keys: &[K]) -> KeyList<K>
    requires { length keys.now ≤ 64 }
    ensures { keys_in result ≡ keys.now }
{
    KeyList {
        keys: placed(keys),
        len: keys.len(),
    }
}

impl<K: OrderedKey> KeyList<K> {
    // A list with no keys.
    pub fn new() -> Self
        ensures { keys_in result ≡ [] }
    {
        listed(&[])
    }

    // A list of the keys of a slice, in their order; none if they are more than 64.
    pub fn of(keys: &[K]) -> Option<KeyList<K>>
        ensures { Made keys.now result }
    {
        if keys.len() > MOST_KEYS {
            return None;
        }
        Some(listed(keys))
    }

    // How many keys there are.
    pub fn len(&self) -> usize
        ensures { result ≡ length (keys_in self.now) }
    {
        self.len
    }

    // The keys, in their order.
    pub fn iter(&self) -> Iter<'_, K>
        ensures all { result ≡ keys_in self.now }
        ensures few { length result ≤ 64 }
    {
        Iter { places: &self.keys }
    }

    // The key at an index, or none past the last.
    pub fn key_at(&self, index: usize) -> Option<K>
        ensures { result ≡ slice_get (keys_in self.now) index }
    {
        self.place(index)
    }

    // The key in a place, or none where it is empty or past the last.
    fn place(&self, index: usize) -> Option<K>
        ensures { result ≡ slice_get (keys_in self.now) index }
    {
        *self.keys.get(index)?
    }

    // Whether a key is in the list.
    pub fn has(&self, key: &K) -> bool
        ensures { result ≡ has K.OrderedKey.order key.now (keys_in self.now) }
    {
        self.iter().any(
            |held| -> bool
                ensures { result ≡ is_equal (K.OrderedKey.order held key.entry.now) }
            { held.is_same(key) },
        )
    }

    // Puts a key behind the last, and answers true; where 64 are there already nothing changes.
    pub fn push(&mut self, key: K) -> bool
        ensures room { result ≡ nat_lt (length (keys_in self.old)) 64 }
        ensures now_keys { keys_in self.new ≡ (if result then keys_in self.old ++ key ∷ [] else keys_in self.old) }
    {
        if self.len() >= MOST_KEYS {
            return false;
        }
        self.insert_at(self.len(), key);
        true
    }

    // Puts a key behind the last, if it is wanted. Where 64 are there already nothing changes.
    pub fn push_if(&mut self, key: K, wanted: bool)
        ensures now_keys { length (keys_in self.old) < 64 → keys_in self.new ≡ (if wanted then keys_in self.old ++ key ∷ [] else keys_in self.old) }
        ensures one_more { length (keys_in self.new) ≤ length (keys_in self.old) + 1 }
    {
        if wanted {
            let _ = self.push(key);
        }
    }

    // Puts a key in front of the first that is not below it, or leaves it where it stands: among
    // ascending keys that is its place. Answers true; where there is no room nothing changes.
    pub fn insert(&mut self, key: K) -> bool
        ensures room { result ≡ nat_le (length (put_key K.OrderedKey.order key (keys_in self.old))) 64 }
        ensures now_keys { keys_in self.new ≡ (if result then put_key K.OrderedKey.order key (keys_in self.old) else keys_in self.old) }
    {
        let Some(index) = self.gap(&key) else {
            return true;
        };
        if self.len() >= MOST_KEYS {
            return false;
        }
        self.insert_at(index, key);
        true
    }

    // The index at which a key goes, in front of the first that is not below it; none if it stands there.
    fn gap(&self, key: &K) -> Option<usize>
        ensures { Gap K.OrderedKey.order key.now (keys_in self.now) result }
    {
        for (index, held) in self.iter().enumerate() {
            match key.compare(&held) {
                Ordering::Less => return Some(index),
                Ordering::Equal => return None,
                Ordering::Greater => {}
            }
        }
        Some(self.len())
    }

    // Puts a key at an index, and moves the keys from there on one further.
    fn insert_at(&mut self, index: usize, key: K)
        requires room { length (keys_in self.old) < 64 }
        requires within { index ≤ length (keys_in self.old) }
        ensures between { keys_in self.new ≡ insert (keys_in self.old) index key }
        ensures last { index ≡ length (keys_in self.old) → keys_in self.new ≡ keys_in self.old ++ key ∷ [] }
    {
        let places = &mut self.keys[..];
        places[index..self.len + 1].rotate_right(1);
        places[index] = Some(key);
        self.len += 1;
    }
}

impl<'a, K: OrderedKey> IntoIterator for &'a KeyList<K> {
    type Item = K;

    type IntoIter = Iter<'a, K>;

    ghost into_iter_gives = { λ list it. it ≡ keys_in list.now };

    // The keys, in their order.
    fn into_iter(self) -> Self::IntoIter {
        self.iter()
    }
}

// A copy of a list is the list itself.
impl<K: Copy> Clone for KeyList<K> {
    ghost is_clone = { λ x y. y ≡ x };

    ghost is_infallible = { λ _. Unit {0} };

    // The same list; it never fails.
    fn clone(&self) -> Result<KeyList<K>, AllocError> {
        Ok(*self)
    }
}
