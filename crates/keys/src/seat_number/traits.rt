ghost use Rattle.keys.specs.Form.{big_endian};
ghost use Rattle.keys.specs.Hash.{fnv_1a};
ghost use Rattle.keys.specs.Kinds.{seat_of};
ghost use Rattle.keys.specs.Order.{ranked};
ghost use Rattle.keys.specs.Forms.{seat_formed, same_seat};
ghost use Rattle.keys.specs.Orders.{lawful_by, ranked_lawful};
ghost use Rattle.keys.specs.Hashes.{hashing_form};

use super::SeatNumber;
use crate::bytes::{fnv_1a, put};
use crate::hashed_key::HashedKey;
use crate::key::Key;
use crate::ordered_key::OrderedKey;
use std::cmp::Ordering;

// A seat number's form is its 8 bytes, the highest first.
impl Key for SeatNumber {
    const SIZE: usize = 8;

    ghost size = { 8 };

    ghost form = { λ k. big_endian 8 k.number };

    ghost reading = { seat_of };

    ghost formed = { seat_formed };

    fn form_len() -> usize {
        Self::SIZE
    }

    fn write(&self, out: &mut [u8], at: usize) -> Option<usize> {
        put(out, at, &self.number.to_be_bytes())
    }

    fn read(bytes: &[u8]) -> Option<SeatNumber> {
        let Ok(bytes) = <[u8; 8]>::try_from(bytes) else {
            return None;
        };
        Some(SeatNumber {
            number: u64::from_be_bytes(bytes),
        })
    }
}

// Seat numbers are compared by value.
impl OrderedKey for SeatNumber {
    ghost order = { λ a b. ranked a.number b.number };

    ghost lawful = { lawful_by (λ k. k.number) ranked same_seat ranked_lawful };

    fn compare(&self, other: &SeatNumber) -> Ordering {
        self.number.cmp(&other.number)
    }
}

// Its hash is FNV-1a over its form.
impl HashedKey for SeatNumber {
    ghost hashed = { λ k. fnv_1a (big_endian 8 k.number) };

    ghost hashing = { hashing_form (λ k. big_endian 8 k.number) };

    fn hash(&self) -> u64 {
        fnv_1a(&self.number.to_be_bytes())
    }
}
