ghost use Rattle.std.specs.Prelude.{◌≡◌, ◌||◌, Bool, None};
ghost use Rattle.key_list.specs.Members.{keys_in};
ghost use Rattle.types.specs.Times.{earlier};
ghost use Rattle.tables.specs.Stores.{Whole};
ghost use Rattle.model.specs.Questions.{blocked_keys, first_expiry};
ghost use Rattle.blocks.specs.Blocked.{places_of, expiries_of, Unblocked};
ghost use Rattle.blocks.specs.Passed.{has_expired, LiftedMore, Standing};

use super::Blocks;
use key_list::KeyList;
use keys::OrderedKey;
use rolls::Roll;
use types::{Moment, earliest};

// Whether there is an expiry that is at or before a moment.
fn has_expired(at: Moment, expiry: Option<Moment>) -> bool
    ensures { result ≡ has_expired at expiry }
{
    expiry.is_some_and(|expiry| expiry <= at)
}

impl<K: OrderedKey, B: Roll<K>> Blocks<K, B> {
    // Removes the blocks that have expired, and answers whether there were any.
    pub fn unblock_expired(&mut self, at: Moment) -> bool
        ensures { Unblocked B.Roll K.OrderedKey.own self.old self.new at result }
    {
        let mut any = false;
        for place in 0..self.places() {
            any |= self.lift_at(at, place);
        }
        any
    }

    // The keys of the peers that are blocked, in their order.
    pub fn peers(&self, at: Moment) -> KeyList<K>
        ensures { keys_in result ≡ blocked_keys at (expiries_of B.Roll K.OrderedKey.own self.now) }
    {
        self.expiries.keys_where(
            |_, expiry|
                ensures { result ≡ earlier at expiry.now }
            { at < *expiry },
        )
    }

    // The earliest expiry, or none where there is no entry.
    #[tactic(auto, using(crate::proofs::Passes::first_further))]
    pub fn earliest(&self) -> Option<Moment>
        ensures { result ≡ first_expiry (expiries_of B.Roll K.OrderedKey.own self.now) None }
    {
        let mut found = None;
        for place in 0..self.places() {
            if let Some(expiry) = self.expiry_at(place) {
                found = Some(earliest(found, expiry));
            }
        }
        found
    }

    // Removes the block at a place if it has expired, and answers whether it has.
    fn lift_at(&mut self, at: Moment, place: usize) -> bool
        ensures { (any : Bool) → LiftedMore B.Roll K.OrderedKey.own self.old self.new at place any (any || result) }
    {
        let expired = has_expired(at, self.expiry_at(place));
        if expired {
            self.expiries.remove(place);
        }
        expired
    }

    // The expiry at a place, or none where it is empty.
    fn expiry_at(&self, place: usize) -> Option<Moment>
        ensures standing { Standing B.Roll K.OrderedKey.own self.now place result }
        ensures whole { Whole (places_of B.Roll self.now) self.now.expiries.values }
    {
        let key = self.expiries.key_at(place)?;
        self.expiry(&key)
    }
}
