ghost use Rattle.std.specs.Prelude.{◌≡◌, IfOk};

use crate::clause::{Clause, read_all};
use rel_lexer::Text;
use std::alloc::{AllocError, Global};
use std::marker::Model;
use std::rc::Rc;

/// Clauses that were read once. Their copies share them. Contracts see their texts.
#[derive(Drop)]
pub struct Clauses {
    // None where there are none, so that these take no memory.
    list: Option<Rc<Vec<Clause>>>,
}

impl Model for Clauses {
    ghost use Rattle.std.specs.Prelude.{List, ℕ};
    ghost use Rattle.std.specs.Option.{option_map};
    ghost use Rattle.agent_attempt.specs.ReadTexts.{clauses_in};

    ghost Value = { List (List ℕ) };

    ghost view = { λ c. clauses_in (option_map (λ list. list.value.items) c.list) };
}

impl Clauses {
    /// Reads clauses, in their order. The error is want of memory.
    pub(crate) fn read(alloc: Global, texts: &[Text]) -> Result<Clauses, AllocError>
        ensures { IfOk result (λ clauses. clauses ≡ texts.now) }
    {
        if texts.is_empty() {
            return Ok(Clauses { list: None });
        }
        let list = read_all(alloc, texts)?;
        Ok(Clauses {
            list: Some(Rc::new(alloc, list)?),
        })
    }

    /// The same clauses once more. It takes no memory, but can't be had of more copies than can be counted.
    pub(crate) fn copy(&self) -> Result<Clauses, AllocError>
        ensures { IfOk result (λ copy. copy ≡ self.now) }
    {
        match &self.list {
            Some(list) => Ok(Clauses {
                list: Some(list.clone()?),
            }),
            None => Ok(Clauses { list: None }),
        }
    }

    /// The clauses.
    pub(crate) fn as_slice(&self) -> &[Clause]
        ensures { result.now ≡ self.now }
    {
        match &self.list {
            Some(list) => list.as_slice(),
            None => &[],
        }
    }
}
