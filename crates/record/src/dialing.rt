use types::Moment;

// Whether a peer can be dialled.
#[derive(Clone, Copy, Debug, PartialEq, Eq)]
pub enum DialStatus {
    // Yes, at once.
    Now,
    // From the given moment on.
    After(Moment),
    // No.
    Unavailable,
}

// What comes of an attempt to reserve a peer.
#[derive(Clone, Copy, Debug, PartialEq, Eq)]
pub enum ReserveResult {
    // The peer is reserved.
    Reserved,
    // Denied, since too little time has passed since the last reservation.
    RateLimited,
    // Denied for another reason: reserved or connected already, or ourselves.
    Unavailable,
}
