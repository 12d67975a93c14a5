ghost use Rattle.std.specs.Prelude.{◌≡◌, ◌-◌, ◌≤◌, true, [], length, is_some, is_ok, if◌then◌else◌};
ghost use Rattle.key_list.specs.Members.{keys_in};
ghost use Rattle.peer_sets.specs.Held.{set_of};
ghost use Rattle.tables.specs.Listings.{keys_where};
ghost use Rattle.model.specs.Track.{known, newcomers, each, to_close};
ghost use Rattle.records.specs.Kept.{fits, places_of, records_of, RaiseAnswer, RaisedAll, JoinAnswer, Lowered, LoweredAll, Left, TidiedOne, Tidied};
ghost use Rattle.records.specs.Ranks.{raised, lowered, is_stale, is_cut_off, is_chosen, Proper};

use super::Records;
use crate::choice::{Choice, is_chosen};
use crate::full::PeersFull;
use crate::rank::{Rank, lower, raise};
use key_list::KeyList;
use keys::OrderedKey;
use peer_sets::PeerSet;
use record::Record;
use rolls::Roll;

// Whether the record of a peer is to be deleted: it is among the members, and nothing holds it.
fn is_stale<K: OrderedKey>(members: &PeerSet<K>, key: &K, found: &Record<K>) -> bool
    ensures { result ≡ is_stale K.OrderedKey.order (set_of members.now) key.now found.now }
{
    members.is_member(key) && found.deletable()
}

impl<K: OrderedKey, R: Roll<K>> Records<K, R> {
    // The record of a peer, or a new one of a peer of which nothing is known.
    fn known(&self, key: &K) -> Record<K>
        ensures { result ≡ known K.OrderedKey.order (records_of R.Roll K.OrderedKey.own self.now) key.now }
    {
        self.get(key).unwrap_or(Record::unknown())
    }

    // One set more has a peer. It gets a record if it has none.
    fn raise_one(&mut self, rank: Rank, key: &K) -> Result<(), PeersFull>
        ensures { RaiseAnswer R.Roll K.OrderedKey.own self.old self.new (raised rank) key.now result }
    {
        let mut record = self.known(key);
        raise(rank, &mut record);
        self.table.enter(*key, record)?;
        Ok(())
    }

    // One set fewer has a peer, if it has a record.
    fn lower_one(&mut self, rank: Rank, key: &K)
        ensures { Lowered R.Roll K.OrderedKey.own self.old self.new (lowered rank) key.now }
    {
        let Some(place) = self.find(key) else {
            return;
        };
        let Some(mut record) = self.at(place) else {
            return;
        };
        lower(rank, &mut record);
        self.table.write(place, record);
    }

    // How many of these peers have no record.
    fn newcomers(&self, keys: &KeyList<K>) -> usize
        ensures few { result ≤ 64 }
        ensures all { result ≡ newcomers K.OrderedKey.order (keys_in keys.now) (records_of R.Roll K.OrderedKey.own self.now) }
    {
        keys.iter().filter(|key| self.get(key).is_none()).count()
    }

    // One set more has each of these peers.
    fn raise_all(&mut self, rank: Rank, keys: &KeyList<K>) -> Result<(), PeersFull>
        ensures { length (each K.OrderedKey.order (raised rank) (keys_in keys.now) (records_of R.Roll K.OrderedKey.own self.old)) ≤ length (places_of R.Roll self.old) → (is_ok result ≡ true) × RaisedAll R.Roll K.OrderedKey.own self.old self.new (raised rank) (keys_in keys.now) [] }
    {
        for key in keys.iter() {
            self.raise_one(rank, &key)?;
        }
        Ok(())
    }

    // One set fewer has each of these peers.
    fn lower_all(&mut self, rank: Rank, keys: &KeyList<K>)
        ensures { LoweredAll R.Roll K.OrderedKey.own self.old self.new (lowered rank) (keys_in keys.now) [] }
    {
        for key in keys.iter() {
            self.lower_one(rank, &key);
        }
    }

    // How many more records there is room for.
    fn room(&self) -> usize
        ensures { result ≡ length (places_of R.Roll self.now) - length (records_of R.Roll K.OrderedKey.own self.now) }
    {
        self.table.size().saturating_sub(self.table.count())
    }

    // Whether there is room for the records of all members.
    fn has_room(&self, members: &PeerSet<K>) -> bool
        ensures { result ≡ fits R.Roll K.OrderedKey.own self.now (set_of members.now) }
    {
        self.newcomers(&members.primaries()) + self.newcomers(&members.secondaries()) <= self.room()
    }

    // One set more has these members. Those without a record get one, if there is room for all of
    // them; if not, nothing changes.
    pub fn join(&mut self, members: &PeerSet<K>) -> Result<(), PeersFull>
        ensures { Proper K.OrderedKey.order (set_of members.now) → JoinAnswer R.Roll K.OrderedKey.own self.old self.new (set_of members.now) result }
    {
        if !self.has_room(members) {
            return Err(PeersFull);
        }
        self.raise_all(Rank::Primary, &members.primaries())?;
        self.raise_all(Rank::Secondary, &members.secondaries())
    }

    // One set fewer has these members.
    pub fn leave(&mut self, members: &PeerSet<K>)
        ensures { Left R.Roll K.OrderedKey.own self.old self.new (set_of members.now) }
    {
        self.lower_all(Rank::Primary, &members.primaries());
        self.lower_all(Rank::Secondary, &members.secondaries());
    }

    // Deletes the record of a peer that is among members of a set, if nothing holds it.
    fn tidy_one(&mut self, members: &PeerSet<K>, key: &K)
        ensures { TidiedOne R.Roll K.OrderedKey.own self.old self.new (set_of members.now) key.now }
    {
        let Some(place) = self.find(key) else {
            return;
        };
        let Some(record) = self.at(place) else {
            return;
        };
        if !is_stale(members, key, &record) {
            return;
        }
        self.table.remove(place);
    }

    // Deletes the records of members that nothing holds any more.
    pub fn tidy(&mut self, members: &PeerSet<K>)
        ensures { Tidied R.Roll K.OrderedKey.own self.old self.new (set_of members.now) }
    {
        let keys = self.table.keys();
        for key in keys.iter() {
            self.tidy_one(members, &key);
        }
    }

    // The members whose links are to be closed, in key order: those that have a reservation or
    // connection and are not eligible.
    pub fn to_close(&self, members: &PeerSet<K>) -> KeyList<K>
        ensures { keys_in result ≡ to_close K.OrderedKey.order (set_of members.now) (records_of R.Roll K.OrderedKey.own self.now) }
    {
        self.table.keys_where(
            |key, record|
                ensures { result ≡ is_cut_off K.OrderedKey.order (set_of members.entry.now) key record.now }
            { members.is_member(&key) && record.needs_teardown() },
        )
    }

    // The keys of the records that are chosen, in key order.
    pub fn chosen(&self, choice: Choice) -> KeyList<K>
        ensures { keys_in result ≡ keys_where (λ k. is_chosen choice) (records_of R.Roll K.OrderedKey.own self.now) }
    {
        let is_one = |_: K, record: &Record<K>| -> bool
            ensures { result ≡ is_chosen choice record.now }
        { is_chosen(choice, record) };
        self.table.keys_where(is_one)
    }
}
