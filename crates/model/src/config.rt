use types::Span;

// The settings of a directory.
#[derive(Clone, Copy)]
pub struct Config {
    // Whether private addresses may be dialled.
    pub allow_private_ips: bool,
    // Whether hosts may be dialled.
    pub allow_dns: bool,
    // How many sets are held at most, 1 to 8.
    pub max_sets: u64,
    // How many dials have to fail before a peer's information is wanted again.
    pub dial_fail_limit: u64,
    // How long after a reservation the next one may be made.
    pub peer_connection_cooldown: Span,
    // How long a block lasts.
    pub block_duration: Span,
}
