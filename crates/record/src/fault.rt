ghost use Rattle.std.specs.Prelude.{◌≡◌};
ghost use Rattle.record.specs.Faults.{number_of};

// Why a record refuses a call.
#[derive(Clone, Copy, Debug, PartialEq, Eq)]
pub enum RecordFault {
    // Only a reserved peer can be connected.
    NotReserved,
    // An inert peer has nothing to release.
    IsInert,
}

impl RecordFault {
    // The number of the refusal.
    pub fn number(&self) -> u8
        ensures { result ≡ number_of self.now }
    {
        match self {
            RecordFault::NotReserved => 16,
            RecordFault::IsInert => 17,
        }
    }
}
