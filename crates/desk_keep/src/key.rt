ghost use Rattle.std.specs.Prelude.{◌≡◌, ◌<◌, ◌≤◌, [], length, MatchOption};
ghost use Rattle.desk_keep.specs.Keys.{key_cmp, table_number};
ghost use Rattle.desk_keep.specs.Inside.{shown_parts, shown_key};

use crate::Table;
use arrayvec::ArrayVec;
use rel_lexer::Text;
use std::cmp::Ordering;

/// The most bytes of a name, and more than those of a digest.
const LONGEST_NAME: usize = 64;

/// What a key is made of: its table, a name or a digest, and a number.
#[derive(Clone, Copy)]
pub(crate) struct KeyParts<'a> {
    pub(crate) table: Table,
    pub(crate) name: &'a [u8],
    pub(crate) number: u64,
}

impl<'a> KeyParts<'a> {
    pub(crate) fn new(table: Table, name: &'a [u8], number: u64) -> KeyParts<'a>
        ensures { shown_parts result ≡ record { table = table_number table; name = name.now; number = number } }
    {
        KeyParts {
            table,
            name,
            number,
        }
    }

    pub(crate) fn named(table: Table, name: &'a Text, number: u64) -> KeyParts<'a>
        ensures { shown_parts result ≡ record { table = table_number table; name = name.now; number = number } }
    {
        KeyParts::new(table, name.as_str().as_bytes(), number)
    }

    /// The key of the file of this digest.
    pub(crate) fn of_file(digest: &'a [u8; 32]) -> KeyParts<'a>
        ensures parts { shown_parts result ≡ record { table = 2; name = digest.now; number = 0 } }
        ensures short { length digest.now ≤ 64 }
    {
        KeyParts::new(Table::Files, digest.as_slice(), 0)
    }

    /// Which of two keys comes first.
    pub(crate) fn compare(&self, other: &KeyParts<'_>) -> Ordering
        ensures { result ≡ key_cmp (shown_parts self.now) (shown_parts other.now) }
    {
        let tables = self.table.number().cmp(&other.table.number());
        let names = self.name.cmp(&other.name);
        tables.then(names).then(self.number.cmp(&other.number))
    }
}

/// A key that is kept, in the order of `KeyParts::compare`. It owns no memory of its own.
#[derive(PartialEq, Eq, PartialOrd, Ord, Drop)]
pub(crate) struct StoredKey {
    /// The place of its table in the order.
    table: u8,
    name: ArrayVec<u8, LONGEST_NAME>,
    number: u64,
}

impl StoredKey {
    /// The key of these parts. None where the name is longer than any that is kept.
    pub(crate) fn new(parts: KeyParts<'_>) -> Option<StoredKey>
        ensures { MatchOption result (64 < length parts.entry.name.now) (λ key. shown_key key ≡ shown_parts parts.entry) }
    {
        let Ok(name) = ArrayVec::try_from(parts.name) else {
            return None;
        };
        Some(StoredKey {
            table: parts.table.number(),
            name,
            number: parts.number,
        })
    }

    /// The key before all those of the table of this number.
    pub(crate) fn before_table(table: u8) -> StoredKey
        ensures { shown_key result ≡ record { table = table; name = []; number = 0 } }
    {
        StoredKey {
            table,
            name: ArrayVec::new(),
            number: 0,
        }
    }
}
