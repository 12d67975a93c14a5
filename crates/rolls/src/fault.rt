ghost use Rattle.std.specs.Prelude.{◌≡◌};
ghost use Rattle.rolls.specs.Faults.{number_of};
ghost use Rattle.rolls.specs.declared.fault.RollFault.TheVariants.{OutOfMemory};

use std::alloc::AllocError;
use std::fmt;
use thiserror::Error;

// Why a roll refuses a call.
#[derive(Clone, Copy, Debug, PartialEq, Eq, Error)]
pub enum RollFault {
    // The key is absent and no place is empty.
    #[error(fmt = full)]
    Full,
    // The place to be struck is empty.
    #[error(fmt = vacant)]
    Vacant,
    // The size is none that a roll can have.
    #[error(fmt = bad_size)]
    BadSize,
    // There is no memory for the roll.
    #[error(fmt = out_of_memory)]
    OutOfMemory,
}

// What is printed of each fault; a width that is asked for is kept.
fn full<W: fmt::Write>(f: &mut fmt::Formatter<W>) -> fmt::Result {
    f.pad("no place is empty")
}

fn vacant<W: fmt::Write>(f: &mut fmt::Formatter<W>) -> fmt::Result {
    f.pad("the place is empty already")
}

fn bad_size<W: fmt::Write>(f: &mut fmt::Formatter<W>) -> fmt::Result {
    f.pad("a roll has 1 to 64 places")
}

fn out_of_memory<W: fmt::Write>(f: &mut fmt::Formatter<W>) -> fmt::Result {
    f.pad("no memory for the roll")
}

impl RollFault {
    // The number of the refusal, where it has one of its own.
    pub fn number(&self) -> Option<u8>
        ensures { result ≡ number_of self.now }
    {
        match self {
            RollFault::BadSize => Some(22),
            RollFault::Full | RollFault::Vacant | RollFault::OutOfMemory => None,
        }
    }
}

impl From<AllocError> for RollFault {
    ghost from_gives = { λ _ fault. fault ≡ OutOfMemory };

    fn from(_error: AllocError) -> RollFault {
        RollFault::OutOfMemory
    }
}
