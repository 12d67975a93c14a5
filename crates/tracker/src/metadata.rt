ghost use Rattle.std.specs.Prelude.{◌≡◌};
ghost use Rattle.tracker.specs.Tokens.{metadata_key, metadata_with};

use keys::Key;
use record::Role;
use types::Ingress;

// What a peer is reserved or connected for.
#[derive(Clone, Copy, Debug)]
pub enum Metadata<K> {
    // We dial the peer with this key, at this ingress.
    Dialer(K, Ingress),
    // The peer with this key dials us.
    Listener(K),
}

impl<K: Key> Metadata<K> {
    // The key of the peer.
    pub fn public_key(&self) -> K
        ensures { result ≡ metadata_key self.now }
    {
        match self {
            Metadata::Dialer(key, _) | Metadata::Listener(key) => *key,
        }
    }

    // The metadata of a peer that has a role.
    pub(crate) fn new(key: K, role: Role) -> Self
        ensures { result ≡ metadata_with key role }
    {
        match role {
            Role::Dialer(ingress) => Metadata::Dialer(key, ingress),
            Role::Listener => Metadata::Listener(key),
        }
    }
}
