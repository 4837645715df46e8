use std::alloc::{AllocError, AllocFailed};

/// Why there is no value.
#[derive(Clone, Copy)]
pub enum ValueFault {
    DivideByZero,
    /// The number is no i64, or the time is no moment.
    OutOfRange,
    /// The text has not the form that is asked for.
    Absent,
    /// The text has more than 1,048,576 bytes.
    TextTooLong,
    Memory,
}

impl From<AllocError> for ValueFault {
    ghost use Rattle.std.specs.Prelude.{◌≡◌};
    ghost use Rattle.rel_value.specs.declared.fault.ValueFault.TheVariants.{Memory};

    ghost from_gives = { λ _ fault. fault ≡ Memory };

    fn from(_: AllocError) -> ValueFault {
        ValueFault::Memory
    }
}

impl<T: Drop> From<AllocFailed<T>> for ValueFault {
    ghost use Rattle.std.specs.Prelude.{◌≡◌};
    ghost use Rattle.rel_value.specs.declared.fault.ValueFault.TheVariants.{Memory};

    ghost from_gives = { λ _ fault. fault ≡ Memory };

    fn from(_: AllocFailed<T>) -> ValueFault {
        ValueFault::Memory
    }
}
