ghost use Rattle.std.specs.Prelude.{◌≡◌, [], ◌∷◌};
ghost use Rattle.session_tables.specs.Worlds.{tables_started, tables_view};

use crate::look::show;
use crate::stop::Stop;
use bf_machine::{Acted, Command, Key, Looked, Machine, Polled, ProcessNo, Unseen};
use desk_keep::Keeper;
use rel_lexer::Text;
use std::alloc::{AllocError, Global};

/// The tables of a keeper as a machine, on which nothing can be done but to look.
#[derive(Drop)]
pub struct SessionMachine<'a, K: Keeper> {
    pub alloc: Global,
    pub keeper: &'a mut K,
    /// The keys that were looked up, which only clauses see.
    pub looked: &'a mut Unseen<Key>,
}

impl<'a, K: Keeper> Machine for SessionMachine<'a, K> {
    ghost told = { λ m. tables_view (K.told m.keeper.now) m.looked.now (m.keeper.ghost_name ∷ m.looked.ghost_name ∷ []) };

    fn open(&mut self, _work: &Text) -> Result<(), AllocError> {
        Ok(())
    }

    fn look(&mut self, key: &Key) -> Looked {
        match show(self.alloc, self.keeper, key) {
            Ok(answer) => {
                self.looked.push(key);
                Looked::Answer(answer)
            }
            Err(Stop::Keeper) => Looked::Failed,
            Err(Stop::Memory) => Looked::Memory,
        }
    }

    fn act(&mut self, _command: &Command, _moment: i64) -> Acted {
        Acted::Memory
    }

    /// No program was started, so that nobody asks.
    fn poll(&mut self, _process: ProcessNo) -> Polled
        ensures { self.new ≡ self.old }
    {
        Polled::Running
    }

    ghost counted = { λ m. tables_started (K.told m.keeper.now).rows };
}
