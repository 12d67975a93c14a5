ghost use Rattle.keys.specs.Order.{lexical};
ghost use Rattle.keys.specs.Hash.{fnv_1a};
ghost use Rattle.keys.specs.Kinds.{station_of};
ghost use Rattle.keys.specs.Forms.{station_formed, same_station};
ghost use Rattle.keys.specs.Orders.{lawful_by, lexical_lawful};
ghost use Rattle.keys.specs.Hashes.{hashing_form};

use super::StationKey;
use crate::bytes::{fnv_1a, put};
use crate::hashed_key::HashedKey;
use crate::key::Key;
use crate::ordered_key::OrderedKey;
use std::cmp::Ordering;

// A station key's form is its 32 bytes.
impl Key for StationKey {
    const SIZE: usize = 32;

    ghost size = { 32 };

    ghost form = { λ k. k.bytes };

    ghost reading = { station_of };

    ghost formed = { station_formed };

    fn form_len() -> usize {
        Self::SIZE
    }

    fn write(&self, out: &mut [u8], at: usize) -> Option<usize> {
        put(out, at, &self.bytes)
    }

    fn read(bytes: &[u8]) -> Option<StationKey> {
        let Ok(bytes) = <[u8; 32]>::try_from(bytes) else {
            return None;
        };
        Some(StationKey { bytes })
    }
}

// Station keys are compared byte by byte from the front. Most differ in the first byte already.
impl OrderedKey for StationKey {
    ghost order = { λ a b. lexical a.bytes b.bytes };

    ghost lawful = { lawful_by (λ k. k.bytes) lexical same_station lexical_lawful };

    fn compare(&self, other: &StationKey) -> Ordering {
        match self.bytes[0].cmp(&other.bytes[0]) {
            Ordering::Equal => self.bytes.cmp(&other.bytes),
            apart => apart,
        }
    }
}

// Its hash is FNV-1a over its form.
impl HashedKey for StationKey {
    ghost hashed = { λ k. fnv_1a k.bytes };

    ghost hashing = { hashing_form (λ k. k.bytes) };

    fn hash(&self) -> u64 {
        fnv_1a(&self.bytes)
    }
}
