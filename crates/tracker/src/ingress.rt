// What the holder of a token tells the tracker.
#[derive(Clone, Copy, Debug, PartialEq, Eq)]
pub enum Message<K> {
    // The peer is connected.
    Connect(K),
    // The peer's reservation or connection has ended.
    Release(K),
}
