use types::{Info, Ingress};

// What is known of a peer's address.
#[derive(Clone, Copy)]
pub enum Address<K> {
    // Not known yet. Can become `Discovered`.
    Unknown,
    // The peer is ourselves.
    Myself(Info<K>),
    // Given when the directory was made. Can become `Discovered`.
    Bootstrapper(Ingress),
    // Learnt from peers, with the number of times that dialing it has failed since.
    Discovered(Info<K>, u64),
}
