ghost use Rattle.std.specs.Prelude.{◌≡◌, IfOk};

use rel_lexer::{Place, Text};
use std::alloc::{AllocError, AllocFailed};

/// Why a question has no plan: the first fault in the order of checking.
#[derive(Drop)]
pub enum TypeError {
    /// Nothing is defined of these words here, which are those of a name, a sign, a cast or `it`, in lower case and
    /// joined by one space.
    NotDefined(Place, Text),
    /// More than one value may stand here, where one is needed.
    NotSingular(Place),
    /// This has another kind than what it stands beside, or is no test.
    Incompatible(Place),
    Memory,
}

impl TypeError {
    /// The same error once more.
    pub fn copy(&self) -> Result<TypeError, AllocError>
        ensures { IfOk result (λ error. error ≡ self.now) }
    {
        match self {
            TypeError::NotDefined(place, words) => Ok(TypeError::NotDefined(*place, words.copy()?)),
            TypeError::NotSingular(place) => Ok(TypeError::NotSingular(*place)),
            TypeError::Incompatible(place) => Ok(TypeError::Incompatible(*place)),
            TypeError::Memory => Ok(TypeError::Memory),
        }
    }
}

impl From<AllocError> for TypeError {
    ghost use Rattle.std.specs.Prelude.{◌≡◌};
    ghost use Rattle.rel_types.specs.declared.error.TypeError.TheVariants.{Memory};

    ghost from_gives = { λ _ e. e ≡ Memory };

    fn from(_: AllocError) -> TypeError {
        TypeError::Memory
    }
}

impl<T: Drop> From<AllocFailed<T>> for TypeError {
    ghost use Rattle.std.specs.Prelude.{◌≡◌};
    ghost use Rattle.rel_types.specs.declared.error.TypeError.TheVariants.{Memory};

    ghost from_gives = { λ _ e. e ≡ Memory };

    fn from(_: AllocFailed<T>) -> TypeError {
        TypeError::Memory
    }
}
