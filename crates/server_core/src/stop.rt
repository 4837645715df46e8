use std::alloc::AllocError;

/// Why a request isn't answered.
#[derive(Clone, Copy)]
pub(crate) enum Stop {
    /// A call of the keeper failed.
    Keeper,
    /// Memory ran out.
    Memory,
}

impl From<AllocError> for Stop {
    ghost use Rattle.std.specs.Prelude.{◌≡◌};
    ghost use Rattle.server_core.specs.declared.stop.Stop.TheVariants.{Memory};

    ghost from_gives = { λ _ e. e ≡ Memory };

    fn from(_: AllocError) -> Stop {
        Stop::Memory
    }
}
