ghost use Rattle.std.specs.Prelude.{◌≡◌, [], ◌∷◌, ◌++◌, None, IfOk, OnOk, OnErr};
ghost use Rattle.std.specs.Option.{option_copied};
ghost use Rattle.rel_sources.specs.Scenes.{value_of};

use rel_lexer::Text;
use std::alloc::{AllocError, Global};
use std::marker::Model;

/// A parameter.
#[derive(Drop)]
pub struct Pair {
    pub name: Text,
    pub value: Text,
}

/// Parameters, whose names are distinct. Contracts see the list of them.
#[derive(Drop)]
pub struct Pairs {
    items: Vec<Pair>,
}

impl Pair {
    fn copy(&self) -> Result<Pair, AllocError>
        ensures { IfOk result (λ pair. pair ≡ self.now) }
    {
        Ok(Pair {
            name: self.name.copy()?,
            value: self.value.copy()?,
        })
    }
}

impl Model for Pairs {
    ghost use Rattle.std.specs.Prelude.{List};
    ghost use Rattle.rel_sources.specs.declared.pair.Pair.{Pair};

    ghost Value = { List Pair };

    ghost view = { λ p. p.items.items };
}

impl Pairs {
    /// No parameters.
    pub fn new(alloc: Global) -> Pairs
        ensures { result ≡ [] }
    {
        Pairs {
            items: Vec::new(alloc),
        }
    }

    /// Adds a parameter of a name that isn't there. The error is want of memory, and nothing is added.
    pub fn push(&mut self, name: Text, value: Text) -> Result<(), AllocError>
        requires { value_of name self.old ≡ None }
        ensures ok { OnOk result (self.new ≡ self.old ++ record { name = name; value = value } ∷ []) }
        ensures err { OnErr result (self.new ≡ self.old) }
    {
        self.items.push(Pair { name, value })?;
        Ok(())
    }

    /// The same parameters once more. The error is want of memory.
    pub fn copy(&self) -> Result<Pairs, AllocError>
        ensures { IfOk result (λ pairs. pairs ≡ self.now) }
    {
        let mut copies = Vec::new(*self.items.allocator());
        for pair in self.items.as_slice() {
            copies.push(pair.copy()?)?;
        }
        Ok(Pairs { items: copies })
    }

    pub fn as_slice(&self) -> &[Pair]
        ensures { result.now ≡ self.now }
    {
        self.items.as_slice()
    }

    /// The value of the parameter of this name.
    pub fn value_of(&self, name: &str) -> Option<&Text>
        ensures { option_copied result ≡ value_of name.now self.now }
    {
        for pair in self.items.as_slice() {
            if pair.name.as_str() == name {
                return Some(&pair.value);
            }
        }
        None
    }
}
