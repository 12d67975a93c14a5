ghost use Rattle.std.specs.Prelude.{◌≡◌, length};
ghost use Rattle.key_list.specs.Places.{keys_of, taken};

pub mod iter;
pub mod methods;

pub use iter::Iter;

// How many keys a list has at most.
const MOST_KEYS: usize = 64;

// Up to 64 keys in a row. A key may stand in it more than once.
pub struct KeyList<K> {
    // The keys, from the first place on; the places behind them are empty.
    keys: [Option<K>; MOST_KEYS],
    // How many keys there are.
    len: usize,
    // There are 64 places.
    ghost whole: { length keys ≡ 64 },
    // No place behind the first empty one has a key.
    ghost behind: { taken keys ≡ length (keys_of keys) },
    // The number is right.
    ghost counted: { len ≡ length (keys_of keys) },
}

// A list is copied as a whole.
impl<K: Copy> Copy for KeyList<K> {}
