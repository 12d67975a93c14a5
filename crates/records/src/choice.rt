ghost use Rattle.std.specs.Prelude.{◌≡◌};
ghost use Rattle.records.specs.Ranks.{is_chosen};

use keys::Key;
use record::Record;

// Which records are chosen.
#[derive(Clone, Copy, Debug, PartialEq, Eq)]
pub enum Choice {
    // Those of primaries.
    Primaries,
    // Those of secondaries that are not primaries too.
    Secondaries,
    // Those of peers that are reserved or connected.
    Reserved,
}

// Whether a record is chosen.
pub fn is_chosen<K: Key>(choice: Choice, found: &Record<K>) -> bool
    ensures { result ≡ is_chosen choice found.now }
{
    match choice {
        Choice::Primaries => found.primary_sets() > 0,
        Choice::Secondaries => found.primary_sets() == 0 && found.secondary_sets() > 0,
        Choice::Reserved => !found.is_inert(),
    }
}
