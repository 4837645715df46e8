use std::alloc::AllocError;

/// Why nothing is shown.
#[derive(Clone, Copy)]
pub(crate) enum Stop {
    /// A call of the keeper failed.
    Keeper,
    /// Memory ran out.
    Memory,
}

impl From<AllocError> for Stop {
    ghost use Rattle.std.specs.Prelude.{◌≡◌};
    ghost use Rattle.session_tables.specs.declared.stop.Stop.TheVariants.{Memory};

    ghost from_gives = { λ _ e. e ≡ Memory };

    fn from(_: AllocError) -> Stop {
        Stop::Memory
    }
}
