ghost use Rattle.std.specs.Prelude.{◌≡◌, true, is_some, Some};
ghost use Rattle.rolls.specs.Places.{at as key_at};
ghost use Rattle.tables.specs.Listings.{lookup};
ghost use Rattle.tables.specs.Stores.{Whole};
ghost use Rattle.turns.specs.Turned.{taken};
ghost use Rattle.records.specs.Kept.{places_of, records_of, Located, Written, Settled, Learnt};

use super::Records;
use keys::OrderedKey;
use record::Record;
use rolls::Roll;
use turns::Turn;
use types::Info;

impl<K: OrderedKey, R: Roll<K>> Records<K, R> {
    // The record of a peer, or none.
    pub fn get(&self, key: &K) -> Option<Record<K>>
        ensures { result ≡ lookup K.OrderedKey.order key.now (records_of R.Roll K.OrderedKey.own self.now) }
    {
        self.table.get(key)
    }

    // Writes the record of a peer, if it has one.
    pub fn write(&mut self, key: &K, record: Record<K>)
        ensures written { is_some (lookup K.OrderedKey.order key.now (records_of R.Roll K.OrderedKey.own self.old)) ≡ true → Written R.Roll K.OrderedKey.own self.old self.new key.now «record» }
        ensures absent_changes_nothing { lookup K.OrderedKey.order key.now (records_of R.Roll K.OrderedKey.own self.old) ≡ None → self.new ≡ self.old }
    {
        if let Some(place) = self.find(key) {
            self.table.write(place, record);
        }
    }

    // Writes or erases the record of a peer, if it has one.
    pub fn settle(&mut self, key: &K, turn: Turn<K>)
        ensures settled { is_some (lookup K.OrderedKey.order key.now (records_of R.Roll K.OrderedKey.own self.old)) ≡ true → Settled R.Roll K.OrderedKey.own self.old self.new key.now (taken turn) }
        ensures absent_changes_nothing { lookup K.OrderedKey.order key.now (records_of R.Roll K.OrderedKey.own self.old) ≡ None → self.new ≡ self.old }
    {
        let Some(place) = self.find(key) else {
            return;
        };
        match turn {
            Turn::Write(record) => self.table.write(place, record),
            Turn::Erase(_) => self.table.remove(place),
        }
    }

    // The place of the record of a peer, or none.
    pub(super) fn find(&self, key: &K) -> Option<usize>
        ensures located { Located R.Roll K.OrderedKey.own self.now key.now result }
        ensures whole { Whole (places_of R.Roll self.now) self.now.table.values }
    {
        self.table.place(key)
    }

    // The record at the place of a peer.
    pub(super) fn at(&self, place: usize) -> Option<Record<K>>
        ensures { (key : K) → key_at (places_of R.Roll self.now) place ≡ Some key → result ≡ lookup K.OrderedKey.order key (records_of R.Roll K.OrderedKey.own self.now) }
    {
        self.table.value_at(place)
    }

    // Takes an info, if its peer has a record and it is news, and answers the record that it made.
    pub fn learn(&mut self, info: &Info<K>) -> Option<Record<K>>
        ensures { Learnt R.Roll K.OrderedKey.own self.old self.new info.now result }
    {
        let Some(place) = self.find(&info.public_key) else {
            return None;
        };
        let mut record = self.at(place)?;
        if !record.update(*info) {
            return None;
        }
        self.table.write(place, record);
        Some(record)
    }
}
