ghost use Rattle.std.specs.Prelude.{◌≡◌};
ghost use Rattle.records.specs.Ranks.{raised, lowered};

use keys::Key;
use record::Record;

// How a set has a peer.
#[derive(Clone, Copy, Debug, PartialEq, Eq)]
pub enum Rank {
    // As a primary.
    Primary,
    // As a secondary.
    Secondary,
}

// One set more has the peer.
pub fn raise<K: Key>(rank: Rank, found: &mut Record<K>)
    ensures { found.new ≡ raised rank found.old }
{
    match rank {
        Rank::Primary => found.increment_primary(),
        Rank::Secondary => found.increment_secondary(),
    }
}

// One set fewer has the peer.
pub fn lower<K: Key>(rank: Rank, found: &mut Record<K>)
    ensures { found.new ≡ lowered rank found.old }
{
    match rank {
        Rank::Primary => found.decrement_primary(),
        Rank::Secondary => found.decrement_secondary(),
    }
}
