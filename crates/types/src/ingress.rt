ghost use Rattle.std.specs.Prelude.{◌≡◌};
ghost use Rattle.types.specs.Ingresses.{port_of, ip_of, is_valid, same_ingress, host_well_formed};

use super::socket_addr::SocketAddr;
use hostname::Hostname;
use ip_addr::IpAddr;

// What we dial to connect to a peer.
#[derive(Clone, Copy, Debug, PartialEq, Eq)]
pub enum Ingress {
    // An IP address with a port.
    Socket(SocketAddr),
    // A host, to be looked up by DNS, with a port.
    Dns {
        // The host to look up.
        host: Hostname,
        // The port to connect to.
        port: u16,
    },
}

impl Ingress {
    // The port.
    pub fn port(&self) -> u16
        ensures { result ≡ port_of self.now }
    {
        match self {
            Ingress::Socket(addr) => addr.port,
            Ingress::Dns { port, .. } => *port,
        }
    }

    // The IP address, if it is a socket.
    pub fn ip(&self) -> Option<IpAddr>
        ensures { result ≡ ip_of self.now }
    {
        match self {
            Ingress::Socket(addr) => Some(addr.ip),
            Ingress::Dns { .. } => None,
        }
    }

    // Whether this may be dialled: a socket needs a global address unless private ones are allowed,
    // and a host needs DNS to be allowed.
    pub fn is_valid(&self, allow_private_ips: bool, allow_dns: bool) -> bool
        ensures { result ≡ is_valid self.now allow_private_ips allow_dns }
    {
        match self {
            Ingress::Socket(addr) => allow_private_ips || addr.ip.is_global(),
            Ingress::Dns { .. } => allow_dns,
        }
    }

    // Whether the other is the same: of one kind, with the same address or host and the same port.
    #[tactic(auto, using(hostname::proofs::Hosts::same_from_fields))]
    pub fn is_same(&self, other: &Ingress) -> bool
        ensures { result ≡ same_ingress self.now other.now }
    {
        self == other
    }

    // Whether its host is well formed; a socket always is.
    pub fn is_well_formed(&self) -> bool
        ensures { result ≡ host_well_formed self.now }
    {
        match self {
            Ingress::Socket(_) => true,
            Ingress::Dns { host, .. } => host.is_well_formed(),
        }
    }
}
