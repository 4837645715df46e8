ghost use Rattle.std.specs.Prelude.{◌≡◌, IfOk};

use crate::{Change, Changes};
use std::alloc::AllocError;

/// What opening a keeper and putting a batch answer.
#[derive(Clone, Copy)]
pub enum Applied {
    Done,
    /// Nothing was changed, and the count of faults went up.
    Failed,
    /// Memory ran out. Nothing was changed.
    Memory,
}

/// What asking for a row answers.
#[derive(Drop)]
pub enum Found {
    Change(Change),
    /// There is no row of the key.
    Nothing,
    /// The count of faults went up.
    Failed,
    /// Memory ran out.
    Memory,
}

impl Found {
    /// The same answer once more. The error is want of memory, here and below.
    pub fn copy(&self) -> Result<Found, AllocError>
        ensures { IfOk result (λ found. found ≡ self.now) }
    {
        Ok(match self {
            Found::Change(row) => Found::Change(row.copy()?),
            Found::Nothing => Found::Nothing,
            Found::Failed => Found::Failed,
            Found::Memory => Found::Memory,
        })
    }
}

/// What asking for rows answers.
#[derive(Drop)]
pub enum Listed {
    /// The rows, in ascending order of their keys.
    Changes(Changes),
    /// The count of faults went up.
    Failed,
    /// Memory ran out.
    Memory,
}

impl Listed {
    /// The same answer once more.
    pub fn copy(&self) -> Result<Listed, AllocError>
        ensures { IfOk result (λ listed. listed ≡ self.now) }
    {
        Ok(match self {
            Listed::Changes(rows) => Listed::Changes(rows.copy()?),
            Listed::Failed => Listed::Failed,
            Listed::Memory => Listed::Memory,
        })
    }
}

/// What asking for a number of rows answers.
#[derive(Clone, Copy)]
pub enum Counted {
    Rows(u64),
    /// The count of faults went up.
    Failed,
    /// Memory ran out.
    Memory,
}
