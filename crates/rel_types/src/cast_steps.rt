ghost use Rattle.std.specs.Prelude.{◌≡◌, ◌∷◌, ◌++◌, [], IfOk};

use rel_lexer::Place;
use rel_value::Cast;
use std::alloc::{AllocError, Global};
use std::marker::Model;

/// What a value is cast to, and the place of the words that say so.
#[derive(Clone, Copy)]
pub struct CastStep {
    pub place: Place,
    pub cast: Cast,
}

/// Casts in the order in which they are done. Contracts see the list of them.
#[derive(Drop)]
pub struct CastSteps {
    items: Vec<CastStep>,
}

impl Model for CastSteps {
    ghost use Rattle.std.specs.Prelude.{List};
    ghost use Rattle.rel_types.specs.declared.cast_steps.CastStep.{CastStep};

    ghost Value = { List CastStep };

    ghost view = { λ c. c.items.items };
}

impl CastSteps {
    /// Takes no memory.
    pub fn from_vec(casts: Vec<CastStep>) -> CastSteps
        ensures { result ≡ casts.items }
    {
        CastSteps { items: casts }
    }

    /// Takes no memory.
    pub fn into_vec(self) -> Vec<CastStep>
        ensures { result.items ≡ self }
    {
        self.items
    }

    pub fn as_slice(&self) -> &[CastStep]
        ensures { result.now ≡ self.now }
    {
        self.items.as_slice()
    }

    pub(crate) fn new(alloc: Global) -> CastSteps
        ensures { result ≡ [] }
    {
        CastSteps {
            items: Vec::new(alloc),
        }
    }

    pub(crate) fn push(&mut self, cast: CastStep) -> Result<(), AllocError>
        ensures { IfOk result (λ _. self.new ≡ self.old ++ cast ∷ []) }
    {
        self.items.push(cast)?;
        Ok(())
    }

    /// The same casts once more.
    pub fn copy(&self) -> Result<CastSteps, AllocError>
        ensures { IfOk result (λ casts. casts ≡ self.now) }
    {
        Ok(CastSteps {
            items: Vec::from_slice(*self.items.allocator(), self.items.as_slice())?,
        })
    }
}
