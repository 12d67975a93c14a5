use blocks::Blocks;
use keys::OrderedKey;
use model::Config;
use peer_sets::PeerSets;
use records::Records;
use rolls::Roll;
use std::marker::Model;

mod blocking;
mod learning;
mod reserving;
mod telling;
mod tracking;

// The records of all peers, the sets held, and the peers that are blocked.
#[derive(Drop)]
pub struct Directory<K: OrderedKey, R: Roll<K>, B: Roll<K>> {
    // Our own key.
    own: K,
    // The settings.
    config: Config,
    // The records of all peers, ourselves among them.
    records: Records<K, R>,
    // The sets held, oldest first.
    sets: PeerSets<K>,
    // The peers that are blocked, with or without a record.
    blocks: Blocks<K, B>,
}

// A directory is seen as its fields. Of its settings, its places and its sets holds what `Sound` says.
impl<K: OrderedKey, R: Roll<K>, B: Roll<K>> Model for Directory<K, R, B> {
    ghost use Rattle.peer_sets.specs.Held.{held};
    ghost use Rattle.records.specs.Kept.{places_of};
    ghost use Rattle.tracker.specs.Parts.{Parts, Sound};

    ghost Value = { Parts K R B };

    ghost view = { λ d. record { own = d.own; config = d.config; records = d.records; sets = d.sets; blocks = d.blocks } };

    ghost invariant = { λ d. Sound K.OrderedKey.order d.config (places_of R.Roll d.records) (held d.sets) };
}
