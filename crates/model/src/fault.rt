ghost use Rattle.std.specs.Prelude.{◌≡◌};
ghost use Rattle.model.specs.Faults.{number_of, record_fault};

use record::RecordFault;
use thiserror::Error;

// Why a directory refuses a call.
#[derive(Clone, Copy, Debug, PartialEq, Eq, Error)]
pub enum Fault {
    #[error("a list of the caller's has fewer than 64 places")]
    ShortList,
    #[error("a host is malformed")]
    MalformedHost,
    #[error("the number of sets to hold is not 1 to 8")]
    BadMaxSets,
    #[error("a roll that was given is not empty")]
    RollInUse,
    #[error("ourselves and the bootstrappers do not fit")]
    TooManyBootstrappers,
    #[error("a list of keys does not ascend")]
    NotAscending,
    #[error("the index is held already")]
    IndexHeld,
    #[error("the index is below the newest")]
    IndexBelowNewest,
    #[error("the new keys do not find places")]
    TooManyPeers,
    #[error("the peer has no record")]
    NoRecord,
    #[error("the peer cannot be dialled")]
    NotDialable,
    #[error("the peer is blocked")]
    Blocked,
    #[error("it is too early for another reservation")]
    TooEarly,
    #[error("there may be no connection to the peer")]
    NotEligible,
    #[error("the peer is reserved or connected already")]
    NotInert,
    #[error("the peer is not reserved")]
    NotReserved,
    #[error("the peer has nothing to release")]
    IsInert,
    #[error("the peer is blocked already")]
    BlockedAlready,
    #[error("we are never blocked")]
    Ourselves,
    #[error("there is no place for another block")]
    TooManyBlocks,
    #[error("the vector has not one bit for each primary")]
    WrongBits,
}

impl Fault {
    // The number of the refusal.
    pub fn number(&self) -> u8
        ensures { result ≡ number_of self.now }
    {
        match self {
            Fault::ShortList => 1,
            Fault::MalformedHost => 2,
            Fault::BadMaxSets => 3,
            Fault::RollInUse => 4,
            Fault::TooManyBootstrappers => 5,
            Fault::NotAscending => 6,
            Fault::IndexHeld => 7,
            Fault::IndexBelowNewest => 8,
            Fault::TooManyPeers => 9,
            Fault::NoRecord => 10,
            Fault::NotDialable => 11,
            Fault::Blocked => 12,
            Fault::TooEarly => 13,
            Fault::NotEligible => 14,
            Fault::NotInert => 15,
            Fault::NotReserved => 16,
            Fault::IsInert => 17,
            Fault::BlockedAlready => 18,
            Fault::Ourselves => 19,
            Fault::TooManyBlocks => 20,
            Fault::WrongBits => 21,
        }
    }
}

// A record's refusal, as the directory's.
impl From<RecordFault> for Fault {
    ghost from_gives = { λ fault r. r ≡ record_fault fault };

    fn from(fault: RecordFault) -> Fault {
        match fault {
            RecordFault::NotReserved => Fault::NotReserved,
            RecordFault::IsInert => Fault::IsInert,
        }
    }
}
