use crate::Cause;
use std::alloc::{AllocError, AllocFailed};

/// Why a line isn't gone through.
#[derive(Drop)]
pub enum Broken {
    /// It failed.
    Failed(Cause),
    /// Memory ran out.
    Memory,
}

impl From<AllocError> for Broken {
    ghost use Rattle.std.specs.Prelude.{◌≡◌};
    ghost use Rattle.script_run.specs.declared.broken.Broken.TheVariants.{Memory};

    ghost from_gives = { λ _ e. e ≡ Memory };

    fn from(_: AllocError) -> Broken {
        Broken::Memory
    }
}
