ghost use Rattle.std.specs.Prelude.{◌≡◌};
ghost use Rattle.tracker.specs.declared.ingress.Message.TheVariants.{Connect, Release};

use crate::ingress::Message;
use keys::Key;

// A peer that is reserved. It cannot be let go: it ends by writing its release message, or becomes a
// connection by writing its connect message.
pub struct Reservation<K> {
    key: K,
}

// A peer that is connected. It cannot be let go either: it ends by writing its release message.
pub struct Connection<K> {
    key: K,
}

impl<K: Key> Reservation<K> {
    // The reservation of a peer. Only the directory makes one.
    pub(crate) fn new(key: K) -> Self
        ensures { result.key ≡ key }
    {
        Reservation { key }
    }

    // The key of the peer.
    pub fn public_key(&self) -> K
        ensures { result ≡ self.now.key }
    {
        self.key
    }

    // Writes the connect message. The reservation is a connection from now on.
    pub fn connect(self) -> (Message<K>, Connection<K>)
        ensures names_the_peer { result.0 ≡ Connect self.key }
        ensures same_peer { result.1.key ≡ self.key }
    {
        let Reservation { key } = self;
        (Message::Connect(key), Connection { key })
    }

    // Writes the release message, which ends the reservation.
    pub fn release(self) -> Message<K>
        ensures { result ≡ Release self.key }
    {
        let Reservation { key } = self;
        Message::Release(key)
    }
}

impl<K: Key> Connection<K> {
    // The key of the peer.
    pub fn public_key(&self) -> K
        ensures { result ≡ self.now.key }
    {
        self.key
    }

    // Writes the release message, which ends the connection.
    pub fn release(self) -> Message<K>
        ensures { result ≡ Release self.key }
    {
        let Connection { key } = self;
        Message::Release(key)
    }
}
