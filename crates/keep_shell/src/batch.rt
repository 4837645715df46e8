ghost use Rattle.std.specs.Prelude.{All};
ghost use Rattle.desk_keep.specs.Forms.{Fits};

use desk_keep::{Change, Changes};
use std::alloc::{AllocError, Global};
use std::marker::Model;

/// Rows that are put together, each in its form.
#[derive(Drop)]
pub(crate) struct Batch {
    rows: Changes,
}

impl Model for Batch {
    ghost use Rattle.std.specs.Prelude.{List, All};
    ghost use Rattle.desk_keep.specs.declared.change.Change.{Change};
    ghost use Rattle.desk_keep.specs.Forms.{Fits};

    ghost Value = { List Change };

    ghost view = { λ b. b.rows };

    ghost invariant = { λ b. All Fits b.rows };
}

impl Batch {
    /// No rows.
    pub(crate) fn new(alloc: Global) -> Batch {
        Batch {
            rows: Changes::new(alloc),
        }
    }

    /// Adds a row where it has its form, and answers whether it does. The error is want of memory.
    pub(crate) fn add(&mut self, row: Change) -> Result<bool, AllocError> {
        if !row.fits() {
            return Ok(false);
        }
        self.rows.push(row)?;
        Ok(true)
    }

    /// The rows.
    pub(crate) fn as_slice(&self) -> &[Change]
        ensures { All Fits result.now }
    {
        self.rows.as_slice()
    }
}
