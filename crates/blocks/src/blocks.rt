ghost use Rattle.std.specs.Prelude.{◌≡◌, true, ◌||◌, [], length, is_some, is_ok, IfOk, MatchResult, nat_lt};
ghost use Rattle.blocks.specs.Blocked.{roll_of, places_of, expiries_of, BlockAnswer};
ghost use Rattle.model.specs.Peers.{is_blocked};
ghost use Rattle.tables.specs.Listings.{lookup};
ghost use Rattle.tables.specs.Tabled.{vacant, EnterAnswer};

use crate::full::BlocksFull;
use keys::OrderedKey;
use rolls::{Roll, RollFault};
use std::alloc::Global;
use tables::Table;
use turns::is_blocked;
use types::Moment;

mod expiring;

// Which peers are blocked, by the moments at which their blocks expire.
#[derive(Drop)]
pub struct Blocks<K: OrderedKey, B: Roll<K>> {
    // The expiry of each key that has an entry.
    expiries: Table<K, Moment, B>,
}

impl<K: OrderedKey, B: Roll<K>> Blocks<K, B> {
    // Blocks with the places of a roll, and with no entries if it has no keys. Where there is no memory
    // the roll comes back.
    pub fn new(heap: Global, roll: B) -> Result<Self, B>
        ensures returned { MatchResult result (λ b. roll_of b ≡ roll) (λ back. back ≡ roll) }
        ensures same_places { IfOk result (λ b. places_of B.Roll b ≡ B.Roll.places roll) }
        ensures no_entries { IfOk result (λ b. vacant (B.Roll.places roll) ≡ true → expiries_of B.Roll K.OrderedKey.own b ≡ []) }
    {
        Table::new(heap, roll, Moment { millis: 0 }).map(|expiries| Blocks { expiries })
    }

    // The roll of blocks that are taken apart.
    pub fn into_roll(self) -> B
        ensures { result ≡ roll_of self }
    {
        self.expiries.into_roll()
    }

    // How many places there are.
    pub fn places(&self) -> usize
        ensures { result ≡ length (places_of B.Roll self.now) }
    {
        self.expiries.size()
    }

    // When the block of a peer expires or has expired, or none where it has no entry.
    pub fn expiry(&self, key: &K) -> Option<Moment>
        ensures { result ≡ lookup K.OrderedKey.order key.now (expiries_of B.Roll K.OrderedKey.own self.now) }
    {
        self.expiries.get(key)
    }

    // Whether a peer is blocked at a moment.
    pub fn is_blocked(&self, at: Moment, key: &K) -> bool
        ensures { result ≡ is_blocked at (lookup K.OrderedKey.order key.now (expiries_of B.Roll K.OrderedKey.own self.now)) }
    {
        is_blocked(at, self.expiry(key))
    }

    // Writes the expiry of a peer's block, over an entry that it has or in an empty place.
    pub fn block(&mut self, key: K, expiry: Moment) -> Result<(), BlocksFull>
        ensures answered { BlockAnswer B.Roll K.OrderedKey.own self.old self.new key expiry result }
        ensures fits { is_ok result ≡ (is_some (lookup K.OrderedKey.order key (expiries_of B.Roll K.OrderedKey.own self.old)) || nat_lt (length (expiries_of B.Roll K.OrderedKey.own self.old)) (length (places_of B.Roll self.old))) }
    {
        self.enter(key, expiry)?;
        Ok(())
    }

    // Writes an expiry at the place of a key, or at an empty one, and answers the place.
    fn enter(&mut self, key: K, expiry: Moment) -> Result<usize, RollFault>
        ensures entered { EnterAnswer B.Roll K.OrderedKey.own self.old.expiries self.new.expiries key expiry result }
        ensures fits { is_ok result ≡ (is_some (lookup K.OrderedKey.order key (expiries_of B.Roll K.OrderedKey.own self.old)) || nat_lt (length (expiries_of B.Roll K.OrderedKey.own self.old)) (length (places_of B.Roll self.old))) }
    {
        self.expiries.enter(key, expiry)
    }
}
