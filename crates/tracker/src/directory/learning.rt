ghost use Rattle.std.specs.Prelude.{◌≡◌, ◌≤◌, true, [], is_err};
ghost use Rattle.model.specs.Calls.{all_well_formed};
ghost use Rattle.model.specs.Runs.{UpdatePeers, taken_or};
ghost use Rattle.tracker.specs.Directories.{Unchanged, SamePlaces, Performed, LearntOne, LearntAll};

use super::Directory;
use keys::OrderedKey;
use model::Fault;
use rolls::Roll;
use types::Info;

// Whether the host of every info is well formed.
fn are_well_formed<K: OrderedKey>(infos: &[Info<K>]) -> bool
    ensures { result ≡ all_well_formed K.OrderedKey.order infos.now }
{
    infos.iter().all(|info| info.ingress.is_well_formed())
}

impl<K: OrderedKey, R: Roll<K>, B: Roll<K>> Directory<K, R, B> {
    // Takes an info, if its peer has a record and it is news, and then sets the peer's bit in every set
    // held. Answers 1 if it was taken, and 0 if it was passed over.
    fn learn(&mut self, info: &Info<K>) -> usize
        ensures few { result ≤ 1 }
        ensures learnt { LearntOne K.OrderedKey.own R.Roll B.Roll self.old self.new info.now result }
    {
        let Some(learnt) = self.records.learn(info) else {
            return 0;
        };
        self.sets.update(&info.public_key, !learnt.want(self.config.dial_fail_limit));
        1
    }

    // Takes the infos one after the other, and answers how many were taken.
    fn learn_all(&mut self, infos: &[Info<K>]) -> usize
        ensures { LearntAll K.OrderedKey.own R.Roll B.Roll self.old self.new infos.now [] result }
    {
        let mut taken = 0;
        for info in infos {
            taken += self.learn(info);
        }
        taken
    }

    // Takes infos of peers, those that have a record and for which an info is news, and answers how
    // many were taken. Refused with 2 if the host of any is malformed.
    pub fn update_peers(&mut self, infos: &[Info<K>]) -> Result<usize, Fault>
        ensures performed { Performed K.OrderedKey.own R.Roll B.Roll self.old self.new (UpdatePeers infos.now) (taken_or result) }
        ensures refusal_changes_nothing { is_err result ≡ true → Unchanged K.OrderedKey.own R.Roll B.Roll self.old self.new }
        ensures places_stay { SamePlaces K.OrderedKey.own R.Roll B.Roll self.old self.new }
    {
        if !are_well_formed(infos) {
            return Err(Fault::MalformedHost);
        }
        Ok(self.learn_all(infos))
    }
}
