// Whether there is a connection to a peer.
#[derive(Clone, Copy, Debug, PartialEq, Eq)]
pub enum Status {
    // There is none, as at first. Becomes `Reserved` when a reservation is made.
    Inert,
    // Somebody holds a reservation and tries to connect. Becomes `Active` or `Inert`.
    Reserved,
    // The peer is connected. Becomes `Inert` when the connection is closed.
    Active,
}
