ghost use Rattle.std.specs.Prelude.{◌≡◌, ◌∷◌, ◌++◌, [], IfOk};

use rel_lexer::{Place, Text};
use std::alloc::{AllocError, Global};
use std::marker::Model;

/// What a value is cast to: the words after `as`, joined by one space, and their place.
#[derive(Drop)]
pub struct CastTo {
    pub place: Place,
    pub words: Text,
}

impl CastTo {
    /// The same cast once more.
    pub fn copy(&self) -> Result<CastTo, AllocError>
        ensures { IfOk result (λ cast. cast ≡ self.now) }
    {
        Ok(CastTo {
            place: self.place,
            words: self.words.copy()?,
        })
    }
}

/// Casts in the order in which they are done. Contracts see the list of them.
#[derive(Drop)]
pub struct CastList {
    items: Vec<CastTo>,
}

impl Model for CastList {
    ghost use Rattle.std.specs.Prelude.{List};
    ghost use Rattle.rel_grammar.specs.declared.casts.CastTo.{CastTo};

    ghost Value = { List CastTo };

    ghost view = { λ c. c.items.items };
}

impl CastList {
    /// Takes no memory.
    pub fn from_vec(casts: Vec<CastTo>) -> CastList
        ensures { result ≡ casts.items }
    {
        CastList { items: casts }
    }

    /// Takes no memory.
    pub fn into_vec(self) -> Vec<CastTo>
        ensures { result.items ≡ self }
    {
        self.items
    }

    pub fn as_slice(&self) -> &[CastTo]
        ensures { result.now ≡ self.now }
    {
        self.items.as_slice()
    }

    pub(crate) fn new(alloc: Global) -> CastList
        ensures { result ≡ [] }
    {
        CastList {
            items: Vec::new(alloc),
        }
    }

    pub(crate) fn push(&mut self, cast: CastTo) -> Result<(), AllocError>
        ensures { IfOk result (λ _. self.new ≡ self.old ++ cast ∷ []) }
    {
        self.items.push(cast)?;
        Ok(())
    }

    /// The same casts once more.
    pub fn copy(&self) -> Result<CastList, AllocError>
        ensures { IfOk result (λ casts. casts ≡ self.now) }
    {
        let mut copies = Vec::new(*self.items.allocator());
        for cast in self.items.as_slice() {
            copies.push(cast.copy()?)?;
        }
        Ok(CastList::from_vec(copies))
    }
}
