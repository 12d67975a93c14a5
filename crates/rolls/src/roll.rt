ghost use Rattle.std.specs.Prelude.{◌≡◌, List, length, Option};
ghost use Rattle.rolls.specs.Places.{at, Proper, Found, Entered, Struck};

use super::fault::RollFault;
use keys::Key;

// A roll is a table of places, numbered from 0 up to its fixed size, 1 to 64, less one. A place is
// empty or has a key, and no key is there twice. To enter a key is to give it a place, to strike a
// place is to empty it. Places are stable: a key keeps its place until that is struck.
pub trait Roll<K: Key> {
    // What the roll means: its places in their order.
    ghost places: { Self → List (Option K) };

    // How many places there are. They are 1 to 64, and no key is there twice.
    fn size(&self) -> usize
        ensures number { result ≡ length (places self.now) }
        ensures proper { Proper (places self.now) };

    // The key that a place has, or none. A number past the end is taken as an empty place.
    fn key_at(&self, place: usize) -> Option<K>
        ensures { result ≡ at (places self.now) place };

    // The place that has the key, or none.
    fn find(&self, key: &K) -> Option<usize>
        ensures { Found (places self.now) key.now result };

    // The place that has the key, after putting an absent key into an empty place.
    fn enter(&mut self, key: K) -> Result<usize, RollFault>
        ensures { Entered (places self.old) (places self.new) key result };

    // Empties a place. A number past the end is taken as an empty place.
    fn strike(&mut self, place: usize) -> Result<(), RollFault>
        ensures { Struck (places self.old) (places self.new) place result };
}
