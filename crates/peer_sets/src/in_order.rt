ghost use Rattle.std.specs.Prelude.{◌≡◌, ◌==◌, map, length};
ghost use Rattle.std.specs.Option.{option_map};
ghost use Rattle.std.specs.List.{slice_get};
ghost use Rattle.model.specs.Questions.{drawn_set};
ghost use Rattle.model.specs.Sets.{newest, set_at, is_held as one_Has};
ghost use Rattle.peer_sets.specs.Held.{set_of};

use crate::peer_set::PeerSet;
use keys::OrderedKey;

// How many sets there are.
pub(crate) fn count<K: OrderedKey>(sets: &[PeerSet<K>]) -> usize
    ensures all { result ≡ length (map set_of sets.now) }
    ensures len { result ≡ length sets.now }
{
    sets.len()
}

// The index of the last set, or none.
pub(crate) fn last_index<K: OrderedKey>(sets: &[PeerSet<K>]) -> Option<u64>
    ensures { result ≡ newest (map set_of sets.now) }
{
    let last = sets.last()?;
    Some(last.index)
}

// Whether some set has an index.
pub(crate) fn any_has<K: OrderedKey>(sets: &[PeerSet<K>], index: u64) -> bool
    ensures { result ≡ one_Has index (map set_of sets.now) }
{
    sets.iter().any(
        |set| -> bool
            ensures { result ≡ (set.now.index == index) }
        { set.index == index },
    )
}

// The first set that has an index, or none.
pub(crate) fn find<K: OrderedKey>(sets: &[PeerSet<K>], index: u64) -> Option<PeerSet<K>>
    ensures { option_map set_of result ≡ set_at index (map set_of sets.now) }
{
    let found = sets.iter().find(
        |set| -> bool
            ensures { result ≡ (set.now.now.index == index) }
        { set.index == index },
    );
    found.copied()
}

// The set in a place, or none past the last.
pub(crate) fn read<K: OrderedKey>(sets: &[PeerSet<K>], i: usize) -> Option<PeerSet<K>>
    ensures { option_map set_of result ≡ slice_get (map set_of sets.now) i }
{
    sets.get(i).copied()
}

// The set of a draw, each place in turn, or none while there is none.
pub(crate) fn draw_one<K: OrderedKey>(sets: &[PeerSet<K>], draw: u64) -> Option<PeerSet<K>>
    ensures { option_map set_of result ≡ drawn_set draw (map set_of sets.now) }
{
    let place = draw.checked_rem(sets.len() as u64)?;
    read(sets, place as usize)
}
