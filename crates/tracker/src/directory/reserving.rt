ghost use Rattle.std.specs.Prelude.{◌≡◌, true, is_some, is_ok, is_err, IfOk};
ghost use Rattle.turns.specs.Turned.{written_or, turn_of, taken};
ghost use Rattle.model.specs.Calls.{dial, listen, record_of};
ghost use Rattle.model.specs.Runs.{Dial, Listen};
ghost use Rattle.tracker.specs.Directories.{state, Unchanged, SamePlaces, Performed, Reserving, reserved_or};

use super::Directory;
use crate::reservation::Reservation;
use keys::OrderedKey;
use model::Fault;
use record::Record;
use rolls::Roll;
use turns::{dialled, listened};
use types::Moment;

impl<K: OrderedKey, R: Roll<K>, B: Roll<K>> Directory<K, R, B> {
    // What dialing makes of a peer's record, or why it is refused.
    fn dial_turn(&self, at: Moment, draw: u64, key: &K) -> Result<Record<K>, Fault>
        ensures turn { written_or result ≡ dial K.OrderedKey.order (state K.OrderedKey.own R.Roll B.Roll self.now) at draw key.now }
        ensures of_a_record { is_ok result ≡ true → is_some (record_of K.OrderedKey.order (state K.OrderedKey.own R.Roll B.Roll self.now) key.now) ≡ true }
    {
        dialled(
            &self.config,
            at,
            draw,
            self.blocks.expiry(key),
            self.records.get(key),
        )
    }

    // What listening makes of a peer's record, or why it is refused.
    fn listen_turn(&self, at: Moment, draw: u64, key: &K) -> Result<Record<K>, Fault>
        ensures turn { written_or result ≡ listen K.OrderedKey.order (state K.OrderedKey.own R.Roll B.Roll self.now) at draw key.now }
        ensures of_a_record { is_ok result ≡ true → is_some (record_of K.OrderedKey.order (state K.OrderedKey.own R.Roll B.Roll self.now) key.now) ≡ true }
    {
        listened(
            &self.config,
            at,
            draw,
            self.blocks.expiry(key),
            self.records.get(key),
        )
    }

    // Writes the record of a peer that was reserved, and hands out its reservation.
    fn reserve(&mut self, key: &K, reserved: Record<K>) -> Reservation<K>
        requires { is_some (record_of K.OrderedKey.order (state K.OrderedKey.own R.Roll B.Roll self.old) key.now) ≡ true }
        ensures reserving { Reserving K.OrderedKey.own R.Roll B.Roll self.old self.new key.now reserved }
        ensures token { result.key ≡ key.now }
    {
        self.records.write(key, reserved);
        Reservation::new(*key)
    }

    // Reserves a peer for a dial, at the ingress that is known. Refused with 10 if it has no record,
    // 11 if it cannot be dialled, 12 if it is blocked, 13 if it is too early.
    pub fn dial(&mut self, at: Moment, draw: u64, key: &K) -> Result<Reservation<K>, Fault>
        ensures performed { Performed K.OrderedKey.own R.Roll B.Roll self.old self.new (Dial at draw key.now) (reserved_or result) }
        ensures refusal_changes_nothing { is_err result ≡ true → Unchanged K.OrderedKey.own R.Roll B.Roll self.old self.new }
        ensures token_of_the_peer { IfOk result (λ token. token.key ≡ key.now) }
        ensures places_stay { SamePlaces K.OrderedKey.own R.Roll B.Roll self.old self.new }
    {
        let reserved = self.dial_turn(at, draw, key)?;
        Ok(self.reserve(key, reserved))
    }

    // Reserves a peer that dials us. Refused with 12 if it is blocked, 10 if it has no record, 14 if it
    // is not eligible, 15 if it is reserved or connected already, 13 if it is too early.
    pub fn listen(&mut self, at: Moment, draw: u64, key: &K) -> Result<Reservation<K>, Fault>
        ensures performed { Performed K.OrderedKey.own R.Roll B.Roll self.old self.new (Listen at draw key.now) (reserved_or result) }
        ensures refusal_changes_nothing { is_err result ≡ true → Unchanged K.OrderedKey.own R.Roll B.Roll self.old self.new }
        ensures token_of_the_peer { IfOk result (λ token. token.key ≡ key.now) }
        ensures places_stay { SamePlaces K.OrderedKey.own R.Roll B.Roll self.old self.new }
    {
        let reserved = self.listen_turn(at, draw, key)?;
        Ok(self.reserve(key, reserved))
    }
}
