ghost use Rattle.std.specs.Prelude.{◌≡◌, ◌<◌, length, Some, None, IsOk, slice_set};
ghost use Rattle.rolls.specs.Places.{at, Absent, Found, Made};
ghost use Rattle.sorted_roll.specs.Ranks.{Kept, below, Ranked, Sound, RankIn, Vacancy, HasRank};

use keys::OrderedKey;
use rolls::{Roll, RollFault};
use std::alloc::Global;
use std::marker::Model;

// The most places that a roll can have.
const MOST_PLACES: usize = 64;

// A roll for ordered keys. Beside its places it keeps those that have keys, in key order.
#[derive(Drop)]
pub struct SortedRoll<K: OrderedKey> {
    // What each place has.
    places: Vec<Option<K>>,
    // The places that have keys, in the order of their keys; the index of one is its rank.
    ranks: Vec<usize>,
}

// A roll is seen as its places, their order and the room for it, and these agree.
impl<K: OrderedKey> Model for SortedRoll<K> {
    ghost Value = { Kept K };

    ghost view = { λ s. record { places = s.places.items; ranks = s.ranks.items; room = s.ranks.cap } };

    ghost invariant = { λ s. Ranked K.OrderedKey.order s.places.items s.ranks.items s.ranks.cap };
}

impl<K: OrderedKey> SortedRoll<K> {
    // A roll of empty places, 1 to 64 of them.
    pub fn new(heap: Global, size: usize) -> Result<Self, RollFault>
        ensures { Made (Sound K.OrderedKey.order) (λ s. s.places) size result }
    {
        if !(1..=MOST_PLACES).contains(&size) {
            return Err(RollFault::BadSize);
        }
        let places = vec![in heap; None; size]?;
        let ranks = Vec::with_capacity(heap, size)?;
        Ok(SortedRoll { places, ranks })
    }

    // Whether a place has a key that is below the given one.
    fn is_below(&self, place: usize, key: &K) -> bool
        ensures { result ≡ below K.OrderedKey.order (at self.now.places place) key.now }
    {
        matches!(self.places.get(place), Some(Some(held)) if held.is_below(key))
    }

    // The rank at which the key stands or would stand.
    fn rank(&self, key: &K) -> usize
        ensures { RankIn K.OrderedKey.order self.now key.now result }
    {
        self.ranks
            .partition_point(|place| self.is_below(*place, key))
    }

    // The place of a rank if the key stands there, or none.
    fn place_if(&self, rank: usize, key: &K) -> Option<usize>
        requires { RankIn K.OrderedKey.order self.now key.now rank }
        ensures { Found self.now.places key.now result }
    {
        let place = *self.ranks.get(rank)?;
        self.key_at(place)?.is_same(key).then_some(place)
    }

    // The first empty place, or none if every place has a key.
    fn vacancy(&self) -> Option<usize>
        ensures { Vacancy self.now.places result }
    {
        self.places.iter().position(|place| place.is_none())
    }

    // Gives an absent key an empty place and its rank, for which there is room.
    fn put(&mut self, rank: usize, place: usize, key: K) -> Result<(), RollFault>
        requires at_rank { RankIn K.OrderedKey.order self.old key rank }
        requires absent { Absent self.old.places key }
        requires vacant { Vacancy self.old.places (Some place) }
        ensures has_room { IsOk result }
        ensures placed { self.new.places ≡ slice_set self.old.places place (Some key) }
    {
        self.ranks
            .insert(rank, place)
            .map_err(|_| RollFault::OutOfMemory)?;
        self.places[place] = Some(key);
        Ok(())
    }

    // Empties the place of a key and takes its rank away.
    fn clear(&mut self, rank: usize, place: usize)
        requires { HasRank K.OrderedKey.order self.old rank place }
        ensures { self.new.places ≡ slice_set self.old.places place None }
    {
        self.places[place] = None;
        self.ranks.remove(rank);
    }
}

impl<K: OrderedKey> Roll<K> for SortedRoll<K> {
    ghost places = { λ s. s.places };

    fn size(&self) -> usize {
        self.places.len()
    }

    fn key_at(&self, place: usize) -> Option<K> {
        *self.places.get(place)?
    }

    fn find(&self, key: &K) -> Option<usize> {
        self.place_if(self.rank(key), key)
    }

    fn enter(&mut self, key: K) -> Result<usize, RollFault> {
        let rank = self.rank(&key);
        if let Some(place) = self.place_if(rank, &key) {
            return Ok(place);
        }
        let place = self.vacancy().ok_or(RollFault::Full)?;
        self.put(rank, place, key)?;
        Ok(place)
    }

    fn strike(&mut self, place: usize) -> Result<(), RollFault> {
        let key = self.key_at(place).ok_or(RollFault::Vacant)?;
        self.clear(self.rank(&key), place);
        Ok(())
    }
}
