ghost use Rattle.std.specs.Prelude.{◌≡◌, ◌↔◌, ◌++◌, [], ◌∷◌, IfOk, OnOk, OnErr, IsTrue};
ghost use Rattle.desk_keep.specs.Calls.{Appends};
ghost use Rattle.desk_keep.specs.Inside.{IsAboveLast};

use crate::Change;
use std::alloc::{AllocError, Global};
use std::marker::Model;

/// Rows in their order. Contracts see the list of them.
#[derive(Drop)]
pub struct Changes {
    list: Vec<Change>,
}

impl Model for Changes {
    ghost use Rattle.std.specs.Prelude.{List};
    ghost use Rattle.desk_keep.specs.declared.change.Change.{Change};

    ghost Value = { List Change };

    ghost view = { λ c. c.list.items };
}

impl Changes {
    /// No rows. It takes no memory.
    pub fn new(alloc: Global) -> Changes
        ensures { result ≡ [] }
    {
        Changes {
            list: Vec::new(alloc),
        }
    }

    /// The list of these rows. It takes no memory.
    pub fn from_vec(rows: Vec<Change>) -> Changes
        ensures { result ≡ rows.items }
    {
        Changes { list: rows }
    }

    /// The rows, to be changed. It takes no memory.
    pub fn into_vec(self) -> Vec<Change>
        ensures { result.items ≡ self }
    {
        self.list
    }

    /// The rows.
    pub fn as_slice(&self) -> &[Change]
        ensures { result.now ≡ self.now }
    {
        self.list.as_slice()
    }

    /// Appends a row. The error is want of memory, here and below; then nothing is appended.
    pub fn push(&mut self, row: Change) -> Result<(), AllocError>
        ensures ok { OnOk result (self.new ≡ self.old ++ row ∷ []) }
        ensures err { OnErr result (self.new ≡ self.old) }
    {
        self.list.push(row)?;
        Ok(())
    }

    /// Appends a row that comes next in a table's order and is in its form, and answers whether it is.
    pub fn push_next(&mut self, row: Change) -> Result<bool, AllocError>
        ensures ok { IfOk result (Appends self.old self.new row) }
        ensures err { OnErr result (self.new ≡ self.old) }
    {
        if !row.fits() || !may_follow(self.as_slice(), &row) {
            return Ok(false);
        }
        self.list.push(row)?;
        Ok(true)
    }

    /// The same rows once more.
    pub fn copy(&self) -> Result<Changes, AllocError>
        ensures { IfOk result (λ copy. copy ≡ self.now) }
    {
        let mut copies = Vec::new(*self.list.allocator());
        for row in self.list.as_slice() {
            copies.push(row.copy()?)?;
        }
        Ok(Changes::from_vec(copies))
    }
}

/// Whether the row's key is above that of the last of these.
fn may_follow(rows: &[Change], row: &Change) -> bool
    ensures { IsTrue result ↔ IsAboveLast rows.now row.now }
{
    match rows.last() {
        Some(last) => last.key().compare(&row.key()).is_lt(),
        None => true,
    }
}
