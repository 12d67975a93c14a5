use types::Ingress;

// What a reservation was made for.
#[derive(Clone, Copy, Debug, PartialEq, Eq)]
pub enum Role {
    // We dial the peer, at the ingress that was known when the reservation was made.
    Dialer(Ingress),
    // The peer dials us.
    Listener,
}
