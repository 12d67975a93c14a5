ghost use Rattle.std.specs.Prelude.{◌≡◌, Bool, true, [], length, replicate, IfOk, MatchResult, slice_set};
ghost use Rattle.std.specs.List.{slice_get};
ghost use Rattle.key_list.specs.Members.{keys_in};
ghost use Rattle.rolls.specs.Places.{at, Found};
ghost use Rattle.tables.specs.Listings.{lookup, keys as keys_of, Tests, keys_where};
ghost use Rattle.tables.specs.Stores.{Whole};
ghost use Rattle.tables.specs.Tabled.{vacant, places_of, entries, EnterAnswer, Written, Removed};

use key_list::KeyList;
use keys::OrderedKey;
use rolls::{Roll, RollFault};
use std::alloc::Global;
use std::marker::{Model, PhantomData};

// A roll with a value for each of its places. What stands at an empty place means nothing.
#[derive(Drop)]
pub struct Table<K: OrderedKey, V, R: Roll<K>> {
    // The keys.
    roll: R,
    // The value at each place.
    values: Vec<V>,
    // The kind of key.
    of: PhantomData<K>,
}

// A table is seen as its roll and its values, of which there is one for each place.
impl<K: OrderedKey, V, R: Roll<K>> Model for Table<K, V, R> {
    ghost use Rattle.tables.specs.Stores.{Store, Whole};

    ghost Value = { Store V R };

    ghost view = { λ t. record { roll = t.roll; values = t.values.items } };

    ghost invariant = { λ t. Whole (R.Roll.places t.roll) t.values.items };
}

impl<K: OrderedKey, V: Copy, R: Roll<K>> Table<K, V, R> {
    // A table of a roll, with the same value at each place. Where there is no memory for the values
    // the roll comes back.
    pub fn new(heap: Global, roll: R, filler: V) -> Result<Self, R>
        ensures made { MatchResult result (λ t. (t.roll ≡ roll) × (t.values ≡ replicate (length (R.Roll.places roll)) filler)) (λ back. back ≡ roll) }
        ensures no_entries { IfOk result (λ t. vacant (R.Roll.places roll) ≡ true → entries R.Roll K.OrderedKey.own t ≡ []) }
    {
        let mut values = Vec::new(heap);
        if values.resize(roll.size(), filler).is_err() {
            return Err(roll);
        }
        Ok(Table {
            roll,
            values,
            of: PhantomData,
        })
    }

    // Whether every place of a roll is empty.
    pub fn is_vacant(roll: &R) -> bool
        ensures { result ≡ vacant (R.Roll.places roll.now) }
    {
        (0..roll.size()).all(|place| roll.key_at(place).is_none())
    }

    // How many places a roll has.
    pub fn places(roll: &R) -> usize
        ensures { result ≡ length (R.Roll.places roll.now) }
    {
        roll.size()
    }

    // The roll of a table that is taken apart.
    pub fn into_roll(self) -> R
        ensures { result ≡ self.roll }
    {
        self.roll
    }

    // How many places there are.
    pub fn size(&self) -> usize
        ensures number { result ≡ length (places_of R.Roll self.now) }
        ensures whole { Whole (places_of R.Roll self.now) self.now.values }
    {
        self.roll.size()
    }

    // The key at a place, or none.
    pub fn key_at(&self, place: usize) -> Option<K>
        ensures key { result ≡ at (places_of R.Roll self.now) place }
        ensures whole { Whole (places_of R.Roll self.now) self.now.values }
    {
        self.roll.key_at(place)
    }

    // The place of a key, or none.
    pub fn place(&self, key: &K) -> Option<usize>
        ensures found { Found (places_of R.Roll self.now) key.now result }
        ensures whole { Whole (places_of R.Roll self.now) self.now.values }
    {
        self.roll.find(key)
    }

    // The value at a place, or none past the last; it means nothing where the place is empty.
    pub fn value_at(&self, place: usize) -> Option<V>
        ensures value { result ≡ slice_get self.now.values place }
        ensures whole { Whole (places_of R.Roll self.now) self.now.values }
    {
        self.values.get(place).copied()
    }

    // The value of a key, or none.
    pub fn get(&self, key: &K) -> Option<V>
        ensures { result ≡ lookup K.OrderedKey.order key.now (entries R.Roll K.OrderedKey.own self.now) }
    {
        self.value_at(self.place(key)?)
    }

    // How many keys there are.
    pub fn count(&self) -> usize
        ensures { result ≡ length (entries R.Roll K.OrderedKey.own self.now) }
    {
        (0..self.size())
            .filter_map(|place| self.key_at(place))
            .count()
    }

    // The keys in ascending order.
    pub fn keys(&self) -> KeyList<K>
        ensures { keys_in result ≡ keys_of (entries R.Roll K.OrderedKey.own self.now) }
    {
        self.keys_where(|_, _| true)
    }

    // The keys of the entries that pass a test, in ascending order.
    pub fn keys_where<F: Fn(K, &V) -> bool>(&self, test: F) -> KeyList<K>
        requires { F.IsAlwaysCallable test }
        ensures { (t : K → V → Bool) → Tests F.Fn t test → keys_in result ≡ keys_where t (entries R.Roll K.OrderedKey.own self.now) }
    {
        let mut found = KeyList::new();
        for place in (0..self.size()).rev() {
            let Some(key) = self.key_at(place) else {
                continue;
            };
            let Some(value) = self.value_at(place) else {
                continue;
            };
            if test(key, &value) {
                found.insert(key);
            }
        }
        found
    }

    // The key and the value with a rank in the ascending order of the keys, which are given; none past the
    // last.
    pub fn entry(&self, keys: &KeyList<K>, rank: usize) -> Option<(K, V)>
        ensures { keys_in keys.now ≡ keys_of (entries R.Roll K.OrderedKey.own self.now) → result ≡ slice_get (entries R.Roll K.OrderedKey.own self.now) rank }
    {
        let key = keys.key_at(rank)?;
        let value = self.get(&key)?;
        Some((key, value))
    }

    // Writes the value at a place.
    pub fn write(&mut self, place: usize, value: V)
        ensures { Written R.Roll K.OrderedKey.own self.old self.new place value }
    {
        self.put(place, value);
    }

    // Gives a key a place if it has none, and writes its value there.
    pub fn enter(&mut self, key: K, value: V) -> Result<usize, RollFault>
        ensures whole { Whole (places_of R.Roll self.old) self.old.values }
        ensures entered { EnterAnswer R.Roll K.OrderedKey.own self.old self.new key value result }
    {
        let place = self.roll.enter(key)?;
        self.put(place, value);
        Ok(place)
    }

    // Empties a place, if it has a key.
    pub fn remove(&mut self, place: usize)
        ensures { Removed R.Roll K.OrderedKey.own self.old self.new place }
    {
        let _ = self.roll.strike(place);
    }

    // Puts a value in the stead of the one at a place. Past the end it changes nothing.
    fn put(&mut self, place: usize, value: V)
        ensures whole { Whole (places_of R.Roll self.old) self.old.values }
        ensures same_roll { self.new.roll ≡ self.old.roll }
        ensures values { self.new.values ≡ slice_set self.old.values place value }
    {
        if let Some(there) = self.values.get_mut(place) {
            *there = value;
        }
    }
}
