use super::ingress::Ingress;
use super::moment::Moment;

// What a peer says of itself: its ingress as of a moment, under its signature. Signatures are
// checked by the host.
#[derive(Clone, Copy)]
pub struct Info<K> {
    // How to dial the peer.
    pub ingress: Ingress,
    // When the peer signed it.
    pub timestamp: Moment,
    // The peer's key.
    pub public_key: K,
    // The peer's signature over ingress and timestamp.
    pub signature: [u8; 64],
}
