ghost use Rattle.std.specs.Prelude.{◌≡◌};
ghost use Rattle.std.specs.declared.cmp.Ordering.{Ordering};
ghost use Rattle.keys.specs.Order.{Lawful, is_less, is_equal, ascending};

use super::key::Key;
use std::cmp::Ordering;

// A key that stands in one line with all others of its kind.
pub trait OrderedKey: Key {
    // How two keys stand: below, equal or above.
    ghost order: { Self → Self → Ordering };

    // Whether this key is below the other, equal to it or above it.
    fn compare(&self, other: &Self) -> Ordering
        ensures { result ≡ order self.now other.now };

    // Whether this key is the other one.
    fn is_same(&self, other: &Self) -> bool
        ensures { result ≡ is_equal (order self.now other.now) }
    {
        self.compare(other).is_eq()
    }

    // Whether this key is below the other.
    fn is_below(&self, other: &Self) -> bool
        ensures { result ≡ is_less (order self.now other.now) }
    {
        self.compare(other).is_lt()
    }

    ghost lawful: { Lawful order };
}

// Whether each key of the list is below the next.
pub fn is_ascending<K: OrderedKey>(keys: &[K]) -> bool
    ensures { result ≡ ascending K.OrderedKey.order keys.now }
{
    keys.is_sorted_by(
        |a, b| -> bool
            ensures { result ≡ is_less (K.OrderedKey.order a.now b.now) }
        { a.is_below(b) },
    )
}
