ghost use Rattle.std.specs.Prelude.{◌≡◌};
ghost use Rattle.hostname.specs.Numbers.{number_of};

use std::fmt;
use thiserror::Error;

// The refusal of a host that is no name of a host.
#[derive(Clone, Copy, Debug, PartialEq, Eq, Error)]
#[error(fmt = text)]
pub struct MalformedHost;

// What is printed of the refusal; a width that is asked for is kept.
fn text<W: fmt::Write>(f: &mut fmt::Formatter<W>) -> fmt::Result {
    f.pad("the host is malformed")
}

impl MalformedHost {
    // The number of the refusal.
    pub fn number(&self) -> u8
        ensures { result ≡ number_of self.now }
    {
        2
    }
}
