ghost use Rattle.std.specs.Prelude.{◌≡◌, ℕ};
ghost use Rattle.keys.specs.Hash.{Hashing};

use super::ordered_key::OrderedKey;

// An ordered key that also has a hash of 64 bits.
pub trait HashedKey: OrderedKey {
    // The hash of a key.
    ghost hashed: { Self → ℕ };

    // The key's hash.
    fn hash(&self) -> u64
        ensures { result ≡ hashed self.now };

    ghost hashing: { Hashing hashed };
}
