ghost use Rattle.std.specs.Prelude.{◌≡◌, ◌↔◌, ◌≤◌, length, IfOk, IsTrue};
ghost use Rattle.desk_keep.specs.Keys.{key_of, asked_key, table_number};
ghost use Rattle.desk_keep.specs.Inside.{shown_parts};

use crate::key::KeyParts;
use crate::{Change, Table};
use rel_lexer::Text;
use std::alloc::AllocError;

/// The key of a row that is asked for.
#[derive(Drop)]
pub enum Find {
    /// The site of this name.
    Site(Text),
    /// The action of this id.
    Action(u64),
    /// The file of this digest.
    File([u8; 32]),
    /// The computer of this name.
    Computer(Text),
    /// The report of this computer and number.
    Report(Text, u64),
    /// The result of this computer and action.
    Result(Text, u64),
}

impl Find {
    /// The same key once more. The error is want of memory.
    pub fn copy(&self) -> Result<Find, AllocError>
        ensures { IfOk result (λ copy. copy ≡ self.now) }
    {
        match self {
            Find::Site(name) => Ok(Find::Site(name.copy()?)),
            Find::Action(id) => Ok(Find::Action(*id)),
            Find::File(digest) => Ok(Find::File(*digest)),
            Find::Computer(name) => Ok(Find::Computer(name.copy()?)),
            Find::Report(computer, seq) => Ok(Find::Report(computer.copy()?, *seq)),
            Find::Result(computer, action) => Ok(Find::Result(computer.copy()?, *action)),
        }
    }

    /// The table of the row that is asked for.
    pub fn table(&self) -> Table
        ensures { table_number result ≡ (asked_key self.now).table }
    {
        self.key().table
    }

    /// What the key is made of.
    pub(crate) fn key(&self) -> KeyParts<'_>
        ensures parts { shown_parts result ≡ asked_key self.now }
        ensures short { (asked_key self.now).table ≡ 2 → length (asked_key self.now).name ≤ 64 }
    {
        match self {
            Find::Site(name) => KeyParts::named(Table::Sites, name, 0),
            Find::Action(id) => KeyParts::new(Table::Actions, &[], *id),
            Find::File(digest) => KeyParts::of_file(digest),
            Find::Computer(name) => KeyParts::named(Table::Computers, name, 0),
            Find::Report(computer, seq) => KeyParts::named(Table::Reports, computer, *seq),
            Find::Result(computer, action) => KeyParts::named(Table::Results, computer, *action),
        }
    }

    /// Whether this is the key of the row.
    pub fn is_of(&self, row: &Change) -> bool
        ensures { IsTrue result ↔ (key_of row.now ≡ asked_key self.now) }
    {
        self.key().compare(&row.key()).is_eq()
    }
}
