ghost use Rattle.std.specs.Prelude.{◌≡◌, ◌≤◌, true, ◌&&◌, length, is_ok};
ghost use Rattle.std.specs.Result.{result_err};
ghost use Rattle.keys.specs.Order.{ascending};
ghost use Rattle.key_list.specs.Members.{keys_in};
ghost use Rattle.records.specs.Kept.{places_of};
ghost use Rattle.records.specs.Ranks.{Proper};
ghost use Rattle.peer_sets.specs.Held.{set_of, held};
ghost use Rattle.model.specs.Track.{is_above};
ghost use Rattle.tracker.specs.Tracking.{early_refusal, Marked, SetAnswer, JoinSetAnswer, AdmitAnswer, TrackAnswer, EnteredSet, DroppedSet};

use super::Directory;
use key_list::KeyList;
use keys::{OrderedKey, is_ascending};
use model::Fault;
use peer_sets::PeerSet;
use rolls::Roll;

// Whether an index is above the newest, or there is none.
fn is_above(newest: Option<u64>, index: u64) -> bool
    ensures { result ≡ is_above newest index }
{
    newest.is_none_or(|newest| newest < index)
}

// A set that is to be tracked.
#[derive(Clone, Copy)]
struct NewSet<'a, K> {
    // The number by which peers know it.
    index: u64,
    // Its primaries.
    primary: &'a [K],
    // Its secondaries. Those that are primaries too are primaries only.
    secondary: &'a [K],
}

impl<K: OrderedKey> NewSet<'_, K> {
    // Whether both lists of keys ascend.
    fn is_ascending(&self) -> bool
        ensures { result ≡ (ascending K.OrderedKey.order self.now.primary.now && ascending K.OrderedKey.order self.now.secondary.now) }
    {
        is_ascending(self.primary) && is_ascending(self.secondary)
    }
}

impl<K: OrderedKey, R: Roll<K>, B: Roll<K>> Directory<K, R, B> {
    // Refuses a set whatever room there is: with 6 if a list does not ascend, 7 if the index is held,
    // 8 if it is below the newest.
    fn check_new(&self, given: &NewSet<K>) -> Result<(), Fault>
        ensures few_places { is_ok result ≡ true → length (places_of R.Roll self.now.records) ≤ 64 }
        ensures refused { result_err result ≡ early_refusal K.OrderedKey.order (held self.now.sets) given.now.index given.now.primary.now given.now.secondary.now }
    {
        if !given.is_ascending() {
            return Err(Fault::NotAscending);
        }
        if self.sets.is_held(given.index) {
            return Err(Fault::IndexHeld);
        }
        if !is_above(self.sets.newest(), given.index) {
            return Err(Fault::IndexBelowNewest);
        }
        Ok(())
    }

    // Sets the bit of each primary of a new set.
    fn mark(&self, set: &mut PeerSet<K>)
        ensures { Marked K.OrderedKey.own R.Roll B.Roll self.now (set_of set.old) (set_of set.new) }
    {
        let primaries = set.primaries();
        for (i, key) in primaries.iter().enumerate() {
            set.mark_at(i, self.records.is_known(&key, self.config.dial_fail_limit));
        }
    }

    // The oldest set leaves: its members' counts go down, those whose links are to be closed are
    // named, and the records of those that nothing holds any more are deleted.
    fn drop_set(&mut self, oldest: &PeerSet<K>) -> KeyList<K>
        requires { Proper K.OrderedKey.order (set_of oldest.now) }
        ensures { DroppedSet K.OrderedKey.own R.Roll B.Roll self.old self.new (set_of oldest.now) (keys_in result) }
    {
        self.records.leave(oldest);
        let named = self.records.to_close(oldest);
        self.records.tidy(oldest);
        named
    }

    // Makes a new set, unless it is refused: with 6, 7 or 8, or with 9 if it has more members than
    // there are places.
    fn make_set(&self, given: &NewSet<K>) -> Result<PeerSet<K>, Fault>
        ensures { SetAnswer K.OrderedKey.own R.Roll B.Roll self.now given.now.index given.now.primary.now given.now.secondary.now result }
    {
        self.check_new(given)?;
        PeerSet::new(given.index, given.primary, given.secondary).ok_or(Fault::TooManyPeers)
    }

    // Has the members of a new set join, and sets the bits of its primaries. Refused with 9 if there is
    // no room for the records of all of them.
    fn join_set(&mut self, set: &mut PeerSet<K>) -> Result<(), Fault>
        requires { Proper K.OrderedKey.order (set_of set.old) }
        ensures { JoinSetAnswer K.OrderedKey.own R.Roll B.Roll self.old self.new (set_of set.old) (set_of set.new) result }
    {
        self.records.join(set)?;
        self.mark(set);
        Ok(())
    }

    // Enters a new set, whose members have joined. If there are then too many, the oldest leaves, and
    // its members whose links are to be closed are named.
    fn enter_set(&mut self, set: PeerSet<K>) -> KeyList<K>
        requires { Proper K.OrderedKey.order (set_of set) }
        ensures { EnteredSet K.OrderedKey.own R.Roll B.Roll self.old self.new (set_of set) (keys_in result) }
    {
        match self.sets.enter(set, self.config.max_sets) {
            Some(oldest) => self.drop_set(&oldest),
            None => KeyList::new(),
        }
    }

    // Makes a new set and has its members join, unless it is refused.
    fn admit(&mut self, given: &NewSet<K>) -> Result<PeerSet<K>, Fault>
        ensures { AdmitAnswer K.OrderedKey.own R.Roll B.Roll self.old self.new given.now.index given.now.primary.now given.now.secondary.now result }
    {
        let mut set = self.make_set(given)?;
        self.join_set(&mut set)?;
        Ok(set)
    }

    // Tracks a new set, and answers the keys of the links to close.
    fn track_set(&mut self, given: &NewSet<K>) -> Result<KeyList<K>, Fault>
        ensures { TrackAnswer K.OrderedKey.own R.Roll B.Roll self.old self.new given.now.index given.now.primary.now given.now.secondary.now result }
    {
        let set = self.admit(given)?;
        Ok(self.enter_set(set))
    }
}
