ghost use Rattle.std.specs.Iterator.{YieldsFirst, item_count};

use keys::OrderedKey;
use std::marker::Model;

// The keys of a list, in their order, seen as those that are still to come.
#[derive(Drop)]
pub struct Iter<'a, K> {
    // The places from the next key on.
    pub(crate) places: &'a [Option<K>],
}

impl<'a, K> Model for Iter<'a, K> {
    ghost use Rattle.std.specs.Prelude.{List};
    ghost use Rattle.key_list.specs.Places.{keys_of};

    ghost Value = { List K };

    ghost view = { λ it. keys_of it.places.now };
}

impl<'a, K: OrderedKey> Iterator for Iter<'a, K> {
    type Item = K;

    ghost next_gives = { YieldsFirst (λ rest. rest) };

    ghost remaining = { item_count (λ rest. rest) };

    // The next key, or none behind the last.
    fn next(&mut self) -> Option<K> {
        let (first, others) = self.places.split_first()?;
        let key = (*first)?;
        self.places = others;
        Some(key)
    }
}
