ghost use Rattle.std.specs.Prelude.{◌≡◌, IfOk};
ghost use Rattle.script_text.specs.Readings.{shown_script};

use crate::{PrefetchList, StatementList};
use std::alloc::AllocError;

/// An action's script.
#[derive(Drop)]
pub struct Script {
    /// What is fetched first, wherever its lines stand.
    pub prefetches: PrefetchList,
    pub statements: StatementList,
}

impl Script {
    /// The same script once more.
    pub fn copy(&self) -> Result<Script, AllocError>
        ensures { IfOk result (λ script. shown_script script ≡ shown_script self.now) }
    {
        Ok(Script {
            prefetches: self.prefetches.copy()?,
            statements: self.statements.copy()?,
        })
    }
}
