use keys::OrderedKey;
use record::Record;
use rolls::Roll;
use tables::Table;

mod making;
mod tracking;
mod turning;

// The records of all peers.
#[derive(Drop)]
pub struct Records<K: OrderedKey, R: Roll<K>> {
    // What is known of each peer.
    table: Table<K, Record<K>, R>,
}
