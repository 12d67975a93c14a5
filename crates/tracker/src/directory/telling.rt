ghost use Rattle.std.specs.Prelude.{◌≡◌, true, is_some, is_ok, is_err};
ghost use Rattle.turns.specs.Turned.{written_or, turn_of, taken};
ghost use Rattle.model.specs.Calls.{record_of};
ghost use Rattle.model.specs.Peers.{connect_turn, release_turn};
ghost use Rattle.model.specs.Runs.{Connect, Release, done_or};
ghost use Rattle.tracker.specs.Directories.{state, Unchanged, SamePlaces, OneEmptied, Performed, Telling, known_by};

use super::Directory;
use keys::{Key, OrderedKey};
use model::Fault;
use record::Record;
use rolls::Roll;
use turns::{Turn, connected, released};

// Whether a peer's information is known, once its record is as a turn says: it is not wanted.
fn is_known<K: Key>(turn: &Turn<K>, limit: u64) -> bool
    ensures { result ≡ known_by limit (taken turn.now) }
{
    match turn {
        Turn::Write(record) | Turn::Erase(record) => !record.want(limit),
    }
}

impl<K: OrderedKey, R: Roll<K>, B: Roll<K>> Directory<K, R, B> {
    // What connecting makes of a peer's record, or why it is refused.
    fn connect_turn(&self, key: &K) -> Result<Record<K>, Fault>
        ensures turn { written_or result ≡ connect_turn (record_of K.OrderedKey.order (state K.OrderedKey.own R.Roll B.Roll self.now) key.now) }
        ensures of_a_record { is_ok result ≡ true → is_some (record_of K.OrderedKey.order (state K.OrderedKey.own R.Roll B.Roll self.now) key.now) ≡ true }
    {
        connected(self.records.get(key))
    }

    // What releasing makes of a peer's record, or why it is refused.
    fn release_turn(&self, key: &K) -> Result<Turn<K>, Fault>
        ensures turn { turn_of result ≡ release_turn (record_of K.OrderedKey.order (state K.OrderedKey.own R.Roll B.Roll self.now) key.now) }
        ensures of_a_record { is_ok result ≡ true → is_some (record_of K.OrderedKey.order (state K.OrderedKey.own R.Roll B.Roll self.now) key.now) ≡ true }
    {
        released(self.records.get(key))
    }

    // Writes or erases the record of a peer, and sets its bit in every set held.
    fn tell(&mut self, key: &K, turn: Turn<K>)
        requires { is_some (record_of K.OrderedKey.order (state K.OrderedKey.own R.Roll B.Roll self.old) key.now) ≡ true }
        ensures { Telling K.OrderedKey.own R.Roll B.Roll self.old self.new key.now (taken turn) }
    {
        self.records.settle(key, turn);
        self.sets
            .update(key, is_known(&turn, self.config.dial_fail_limit));
    }

    // Marks a reserved peer as connected, and sets its bit in every set held. Refused with 10 if it has
    // no record, 16 if it is not reserved.
    pub fn connect(&mut self, key: &K) -> Result<(), Fault>
        ensures performed { Performed K.OrderedKey.own R.Roll B.Roll self.old self.new (Connect key.now) (done_or result) }
        ensures refusal_changes_nothing { is_err result ≡ true → Unchanged K.OrderedKey.own R.Roll B.Roll self.old self.new }
        ensures places_stay { SamePlaces K.OrderedKey.own R.Roll B.Roll self.old self.new }
    {
        let connected = self.connect_turn(key)?;
        self.tell(key, Turn::Write(connected));
        Ok(())
    }

    // Ends the reservation or connection of a peer, sets its bit in every set held, and deletes its
    // record if nothing holds it. Refused with 10 if it has no record, 17 if it has neither.
    pub fn release(&mut self, key: &K) -> Result<(), Fault>
        ensures performed { Performed K.OrderedKey.own R.Roll B.Roll self.old self.new (Release key.now) (done_or result) }
        ensures refusal_changes_nothing { is_err result ≡ true → Unchanged K.OrderedKey.own R.Roll B.Roll self.old self.new }
        ensures at_most_one_place_emptied { OneEmptied K.OrderedKey.own R.Roll B.Roll self.old self.new key.now }
    {
        let turn = self.release_turn(key)?;
        self.tell(key, turn);
        Ok(())
    }
}
