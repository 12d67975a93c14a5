ghost use Rattle.std.specs.Prelude.{◌≡◌, not};
ghost use Rattle.record.specs.Records.{wanted};
ghost use Rattle.model.specs.Track.{known};
ghost use Rattle.records.specs.Kept.{records_of};

use super::Records;
use keys::OrderedKey;
use rolls::Roll;

impl<K: OrderedKey, R: Roll<K>> Records<K, R> {
    // Whether the information of a peer is known: it is not wanted. That of a peer without a record is.
    pub fn is_known(&self, key: &K, limit: u64) -> bool
        ensures { result ≡ not (wanted limit (known K.OrderedKey.order (records_of R.Roll K.OrderedKey.own self.now) key.now)) }
    {
        self.get(key).is_some_and(|record| !record.want(limit))
    }
}
