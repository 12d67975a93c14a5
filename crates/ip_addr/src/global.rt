ghost use Rattle.std.specs.Prelude.{◌≡◌};
ghost use Rattle.ip_addr.specs.Registry.{says_true};

// What the column "Global" of a special-purpose registry says of a block.
#[derive(Clone, Copy, Debug, PartialEq, Eq)]
pub enum Global {
    // A packet to the block may be forwarded beyond one administrative domain.
    True,
    // A packet to the block may not be forwarded beyond one administrative domain.
    False,
    // The registry does not say.
    NotApplicable,
}

impl Global {
    // Whether the registry says that the block is global.
    pub fn is_true(&self) -> bool
        ensures { result ≡ says_true self.now }
    {
        matches!(self, Global::True)
    }
}
