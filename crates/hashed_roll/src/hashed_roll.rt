ghost use Rattle.std.specs.Prelude.{◌≡◌, ◌<◌, true, false, List, length, slice_set};
ghost use Rattle.rolls.specs.Places.{at, RightSize, Made};
ghost use Rattle.hashed_roll.specs.Slots.{place_of, places_of, slot_at};
ghost use Rattle.hashed_roll.specs.Probing.{home_of, Sound, Vacancy, Suits};
ghost use Rattle.hashed_roll.specs.declared.slot.Slot.{Slot};

use super::slot::Slot;
use keys::HashedKey;
use rolls::{Roll, RollFault};
use std::alloc::Global;
use std::marker::Model;

// The most places that a roll can have.
const MOST_PLACES: usize = 64;

// A roll whose keys are looked up from the slot that their hash names. A key that finds that slot
// taken goes on to the next, and after the last slot comes the first.
#[derive(Drop)]
pub struct HashedRoll<K: HashedKey> {
    slots: Vec<Slot<K>>,
}

// A roll is seen as its slots, and they are sound.
impl<K: HashedKey> Model for HashedRoll<K> {
    ghost Value = { List (Slot K) };

    ghost view = { λ s. s.slots.items };

    ghost invariant = { λ s. Sound K.HashedKey.hashed s.slots.items };
}

// Whether a roll can have this many places.
fn is_right(size: usize) -> bool
    ensures right { result ≡ true → RightSize size }
    ensures wrong { result ≡ false → RightSize size → ⊥ }
{
    (1..=MOST_PLACES).contains(&size)
}

// The home of a key: the slot where its lookup begins. Where there are no slots it is 0.
fn home<K: HashedKey>(key: &K, size: usize) -> usize
    ensures named { 0 < size → result ≡ home_of K.HashedKey.hashed size key.now }
    ensures no_slots { size ≡ 0 → result ≡ 0 }
{
    if size == 0 {
        return 0;
    }
    (key.hash() % size as u64) as usize
}

impl<K: HashedKey> HashedRoll<K> {
    // A roll of this many places, all empty.
    pub fn new(heap: Global, size: usize) -> Result<Self, RollFault>
        ensures { Made (Sound K.HashedKey.hashed) places_of size result }
    {
        if !is_right(size) {
            return Err(RollFault::BadSize);
        }
        let slots = vec![in heap; Slot::Unused; size]?;
        Ok(HashedRoll { slots })
    }

    // The slot with a number. A number past the end is taken as an unused slot.
    fn slot(&self, number: usize) -> Slot<K>
        ensures there { result ≡ slot_at self.now number }
        ensures place { place_of result ≡ at (places_of self.now) number }
    {
        self.slots.get(number).copied().unwrap_or(Slot::Unused)
    }

    // Puts a slot that suits in place of the one with a number.
    fn put(&mut self, number: usize, slot: Slot<K>)
        requires within { number < length self.old }
        requires suits { Suits K.HashedKey.hashed self.old number slot }
        ensures { places_of self.new ≡ slice_set (places_of self.old) number (place_of slot) }
    {
        self.slots[number] = slot;
    }

    // The first empty slot on the way round from the key's home, or none.
    fn vacancy(&self, key: &K) -> Option<usize>
        ensures { Vacancy K.HashedKey.hashed self.now key.now result }
    {
        let size = self.slots.len();
        let home = home(key, size);
        (home..size)
            .chain(0..home)
            .find(|at| self.slot(*at).is_empty())
    }
}

impl<K: HashedKey> Roll<K> for HashedRoll<K> {
    ghost places = { places_of };

    fn size(&self) -> usize {
        self.slots.len()
    }

    fn key_at(&self, place: usize) -> Option<K> {
        self.slot(place).key()
    }

    // The lookup goes from slot to slot until it meets the key or an unused slot, or has seen all.
    fn find(&self, key: &K) -> Option<usize> {
        let size = self.slots.len();
        let mut at = home(key, size);
        let mut seen = 0;
        loop {
            if seen == size {
                break None;
            }
            let slot = self.slot(at);
            if slot.has(key) {
                break Some(at);
            }
            if slot.is_unused() {
                break None;
            }
            at = if at + 1 == size { 0 } else { at + 1 };
            seen += 1;
        }
    }

    fn enter(&mut self, key: K) -> Result<usize, RollFault> {
        if let Some(place) = self.find(&key) {
            return Ok(place);
        }
        let place = self.vacancy(&key).ok_or(RollFault::Full)?;
        self.put(place, Slot::Held(key));
        Ok(place)
    }

    fn strike(&mut self, place: usize) -> Result<(), RollFault> {
        self.key_at(place).ok_or(RollFault::Vacant)?;
        self.put(place, Slot::Struck);
        Ok(())
    }
}
