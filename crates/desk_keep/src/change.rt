ghost use Rattle.std.specs.Prelude.{◌≡◌, ◌≤◌, length, IfOk};
ghost use Rattle.desk_keep.specs.Keys.{key_of, table_number};
ghost use Rattle.desk_keep.specs.Tables.{is_of, is_result_of, without_text};
ghost use Rattle.desk_keep.specs.Inside.{shown_parts};

use crate::key::KeyParts;
use crate::{ResultRow, Table};
use desk_base::Bytes;
use rel_lexer::Text;
use std::alloc::{AllocError, Global};

/// A row of a table. To put it is a change of the table: it takes the place of the row of its key.
#[derive(Drop)]
pub enum Change {
    /// A site, by its name. The version is from 1 to 2^53.
    Site {
        name: Text,
        version: u64,
        text: Bytes,
    },
    /// An action, by its id, from 1 to 2^53: its text, and the digest of its text as it first came.
    Action {
        id: u64,
        text: Bytes,
        digest: [u8; 32],
    },
    /// A file, by its digest.
    File {
        digest: [u8; 32],
        bytes: Bytes,
    },
    /// The name of a computer.
    Computer(Text),
    /// A report, by its computer and its number, from 1 to 2^53: the digest of its text.
    Report {
        computer: Text,
        seq: u64,
        digest: [u8; 32],
    },
    /// A result, by its computer and its action.
    Result(ResultRow),
}

impl Change {
    /// The same row once more. The error is want of memory.
    pub fn copy(&self) -> Result<Change, AllocError>
        ensures { IfOk result (λ copy. copy ≡ self.now) }
    {
        match self {
            Change::Site {
                name,
                version,
                text,
            } => Ok(Change::Site {
                name: name.copy()?,
                version: *version,
                text: text.copy()?,
            }),
            Change::Action { id, text, digest } => Ok(Change::Action {
                id: *id,
                text: text.copy()?,
                digest: *digest,
            }),
            Change::File { digest, bytes } => Ok(Change::File {
                digest: *digest,
                bytes: bytes.copy()?,
            }),
            Change::Computer(name) => Ok(Change::Computer(name.copy()?)),
            Change::Report {
                computer,
                seq,
                digest,
            } => Ok(Change::Report {
                computer: computer.copy()?,
                seq: *seq,
                digest: *digest,
            }),
            Change::Result(last) => Ok(Change::Result(last.copy()?)),
        }
    }

    /// Its table.
    pub fn table(&self) -> Table
        ensures { table_number result ≡ (key_of self.now).table }
    {
        self.key().table
    }

    /// What its key is made of.
    pub(crate) fn key(&self) -> KeyParts<'_>
        ensures parts { shown_parts result ≡ key_of self.now }
        ensures short { (key_of self.now).table ≡ 2 → length (key_of self.now).name ≤ 64 }
    {
        match self {
            Change::Site { name, .. } => KeyParts::named(Table::Sites, name, 0),
            Change::Action { id, .. } => KeyParts::new(Table::Actions, &[], *id),
            Change::File { digest, .. } => KeyParts::of_file(digest),
            Change::Computer(name) => KeyParts::named(Table::Computers, name, 0),
            Change::Report { computer, seq, .. } => {
                KeyParts::named(Table::Reports, computer, *seq)
            }
            Change::Result(result) => {
                KeyParts::named(Table::Results, &result.computer, result.row.action)
            }
        }
    }

    /// The same row without the text that a site has.
    pub(crate) fn copy_without_text(&self, alloc: Global) -> Result<Change, AllocError>
        ensures { IfOk result (λ copy. copy ≡ without_text self.now) }
    {
        match self {
            Change::Site { name, version, .. } => Ok(Change::Site {
                name: name.copy()?,
                version: *version,
                text: Bytes::new(alloc),
            }),
            _ => self.copy(),
        }
    }

    /// Whether it is a row of the table.
    pub fn is_of(&self, table: Table) -> bool
        ensures { result ≡ is_of table self.now }
    {
        self.key().table.number() == table.number()
    }

    /// Whether it is a result of the computer.
    pub fn is_result_of(&self, computer: &str) -> bool
        ensures { result ≡ is_result_of computer.now self.now }
    {
        match self {
            Change::Result(result) => result.computer.as_str() == computer,
            _ => false,
        }
    }
}
