ghost use Rattle.std.specs.Prelude.{◌≡◌, true, is_err};
ghost use Rattle.key_list.specs.Keys.{is_equal};
ghost use Rattle.model.specs.Runs.{Block, UnblockExpired, Unblocked, done_or};
ghost use Rattle.tracker.specs.Directories.{Unchanged, OneBlock, FewerBlocks, Performed};

use super::Directory;
use keys::OrderedKey;
use model::Fault;
use rolls::Roll;
use types::Moment;

impl<K: OrderedKey, R: Roll<K>, B: Roll<K>> Directory<K, R, B> {
    // Whether a key is our own.
    fn is_ourselves(&self, key: &K) -> bool
        ensures { result ≡ is_equal (K.OrderedKey.order self.now.own key.now) }
    {
        self.own.is_same(key)
    }

    // Blocks a peer for the set length of time, whether it has a record or not. Refused with 18 if it is
    // blocked already, 19 if it is ourselves, 20 if it has no entry and there is no place for one.
    pub fn block(&mut self, at: Moment, key: &K) -> Result<(), Fault>
        ensures performed { Performed K.OrderedKey.own R.Roll B.Roll self.old self.new (Block at key.now) (done_or result) }
        ensures refusal_changes_nothing { is_err result ≡ true → Unchanged K.OrderedKey.own R.Roll B.Roll self.old self.new }
        ensures at_most_one_place_filled { OneBlock K.OrderedKey.own R.Roll B.Roll self.old self.new key.now }
    {
        if self.blocks.is_blocked(at, key) {
            return Err(Fault::BlockedAlready);
        }
        if self.is_ourselves(key) {
            return Err(Fault::Ourselves);
        }
        let expiry = at.saturating_add(self.config.block_duration);
        self.blocks.block(*key, expiry)?;
        Ok(())
    }

    // Removes the blocks that expire at or before a moment, and answers whether there were any.
    pub fn unblock_expired(&mut self, at: Moment) -> bool
        ensures performed { Performed K.OrderedKey.own R.Roll B.Roll self.old self.new (UnblockExpired at) (Unblocked result) }
        ensures places_only_emptied { FewerBlocks K.OrderedKey.own R.Roll B.Roll self.old self.new }
    {
        self.blocks.unblock_expired(at)
    }
}
