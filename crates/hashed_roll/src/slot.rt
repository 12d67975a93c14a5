ghost use Rattle.std.specs.Prelude.{◌≡◌};
ghost use Rattle.hashed_roll.specs.Slots.{place_of, is_unused, is_empty, Has};

use keys::OrderedKey;

// A slot of a hashed roll is one of its places, with what a lookup has to know of it.
#[derive(Clone, Copy)]
pub enum Slot<K> {
    // No key has stood here yet. A lookup ends here: its key would stand here or before.
    Unused,
    // A key stood here and was struck. The slot is empty, and a lookup goes on past it.
    Struck,
    // A key stands here.
    Held(K),
}

impl<K: OrderedKey> Slot<K> {
    // The key that stands here, or none.
    pub fn key(&self) -> Option<K>
        ensures { result ≡ place_of self.now }
    {
        match *self {
            Slot::Unused | Slot::Struck => None,
            Slot::Held(key) => Some(key),
        }
    }

    // Whether no key stands here.
    pub fn is_empty(&self) -> bool
        ensures { result ≡ is_empty self.now }
    {
        matches!(self, Slot::Unused | Slot::Struck)
    }

    // Whether no key has stood here yet.
    pub fn is_unused(&self) -> bool
        ensures { result ≡ is_unused self.now }
    {
        matches!(self, Slot::Unused)
    }

    // Whether this key stands here.
    pub fn has(&self, key: &K) -> bool
        ensures { Has self.now key.now result }
    {
        matches!(self, Slot::Held(held) if held.is_same(key))
    }
}
