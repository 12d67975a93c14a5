ghost use Rattle.std.specs.Prelude.{◌≡◌, ◌-◌, false, length, replicate};
ghost use Rattle.key_list.specs.Members.{keys_in as listed};
ghost use Rattle.types.specs.Bits.{bits, spare_bits};
ghost use Rattle.bit_set.specs.Places.{paired};

use key_list::KeyList;
use types::BitVec;

pub mod methods;

// Up to 64 keys in their order, and for each a bit: whether we know that peer's information.
pub struct BitSet<K> {
    // The keys in ascending order.
    keys: KeyList<K>,
    // One bit for each key, in key order; the bits behind those, the spare ones, are 0.
    knowledge: BitVec,
    // The vector claims as many bits as there are keys.
    ghost counted: { knowledge.len ≡ length (listed keys) },
    // It has as many.
    ghost enough: { length (bits knowledge) ≡ length (listed keys) },
    // So every key is paired with a bit.
    ghost every: { length (paired (listed keys) (bits knowledge)) ≡ length (listed keys) },
    // The spare bits are 0.
    ghost spare: { spare_bits knowledge ≡ replicate (64 - length (listed keys)) false },
}

// A set is copied as a whole.
impl<K: Copy> Copy for BitSet<K> {}
