ghost use Rattle.std.specs.Prelude.{◌≡◌, ◌-◌, ◌≤◌, length, take, drop, replicate, is_ok, IfOk, nat_le};

use crate::label::Label;
use crate::malformed_host::MalformedHost;

// How many bytes a name has at most.
const LONGEST: usize = 253;

// Up to 253 bytes that name a host, well formed or not.
#[derive(Clone, Copy, Debug, PartialEq, Eq)]
pub struct Hostname {
    // The bytes of the name, and zeros behind them.
    bytes: [u8; LONGEST],
    // How many bytes the name has.
    len: usize,
    ghost whole: { length bytes ≡ 253 },
    ghost short: { len ≤ 253 },
    ghost padded: { drop len bytes ≡ replicate (253 - len) 0 },
}

impl Hostname {
    ghost use Rattle.hostname.specs.Held.{host_bytes, byte_of, same_host};
    ghost use Rattle.hostname.specs.Names.{well_formed};

    // A name of these bytes, well formed or not. More than 253 are refused.
    pub fn new(bytes: &[u8]) -> Result<Hostname, MalformedHost>
        ensures accepts { is_ok result ≡ nat_le (length bytes.now) 253 }
        ensures holds { IfOk result (λ h. host_bytes h ≡ bytes.now) }
    {
        let len = bytes.len();
        if len > LONGEST {
            return Err(MalformedHost);
        }
        Ok(Hostname {
            bytes: padded(bytes),
            len,
        })
    }

    // How many bytes the name has.
    pub fn len(&self) -> usize
        ensures { result ≡ length (host_bytes self.now) }
    {
        self.len
    }

    // The byte at a place of the name, or none past the last.
    pub fn byte_at(&self, i: usize) -> Option<u8>
        ensures { result ≡ byte_of (host_bytes self.now) i }
    {
        self.as_slice().get(i).copied()
    }

    // Whether the other name has the same bytes.
    pub fn is_same(&self, other: &Hostname) -> bool
        ensures { result ≡ same_host self.now other.now }
    {
        self.as_slice() == other.as_slice()
    }

    // Whether the bytes are a name of a host: labels of letters, digits and hyphens with dots between them.
    pub fn is_well_formed(&self) -> bool
        ensures { result ≡ well_formed (host_bytes self.now) }
    {
        self.as_slice()
            .iter()
            .try_fold(Label::empty(), |label, byte| label.followed_by(*byte))
            .is_some_and(Label::may_end)
    }

    // The bytes of the name.
    fn as_slice(&self) -> &[u8]
        ensures { result.now ≡ host_bytes self.now }
    {
        &self.bytes[..self.len]
    }
}

// These bytes with zeros behind them.
fn padded(bytes: &[u8]) -> [u8; LONGEST]
    requires { length bytes.now ≤ 253 }
    ensures whole { length result ≡ 253 }
    ensures front { take (length bytes.now) result ≡ bytes.now }
    ensures back { drop (length bytes.now) result ≡ replicate (253 - length bytes.now) 0 }
{
    let mut held = [0; LONGEST];
    held[..bytes.len()].copy_from_slice(bytes);
    held
}
