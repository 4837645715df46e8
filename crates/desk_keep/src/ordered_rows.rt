ghost use Rattle.std.specs.Prelude.{◌≡◌, List, [], filter, None, IfOk, IfSome, MatchOption, OnOk, OnErr, count_by};
ghost use Rattle.std.specs.Map.{values_of};
ghost use Rattle.std.specs.Option.{option_copied};
ghost use Rattle.desk_keep.specs.declared.change.Change.{Change};
ghost use Rattle.desk_keep.specs.Keys.{key_of, asked_key};
ghost use Rattle.desk_keep.specs.Forms.{Fits};
ghost use Rattle.desk_keep.specs.Tables.{put, row_at, is_of, is_result_of, AreRows};
ghost use Rattle.desk_keep.specs.Inside.{shown_key, without};

use crate::key::{KeyParts, StoredKey};
use crate::{Change, Find, Table};
use rel_lexer::Text;
use std::alloc::{AllocError, Global};
use std::collections::BTreeMap;
use std::collections::btree_map::Range;
use std::marker::Model;
use std::ops::Bound;

/// The rows of all tables, in ascending order of their keys.
#[derive(Drop)]
pub(crate) struct OrderedRows {
    rows: BTreeMap<StoredKey, Change>,
    /// How many rows each table has.
    counts: [u64; 6],
}

impl Model for OrderedRows {
    ghost use Rattle.std.specs.Prelude.{List};
    ghost use Rattle.std.specs.BTreeMap.{values};
    ghost use Rattle.desk_keep.specs.declared.change.Change.{Change};
    ghost use Rattle.desk_keep.specs.Inside.{IsInside};

    ghost Value = { List Change };

    ghost view = { λ r. values r.rows };

    ghost invariant = { IsInside };
}

impl OrderedRows {
    /// No rows. It takes no memory.
    pub(crate) fn new(alloc: Global) -> OrderedRows
        ensures { result ≡ [] }
    {
        OrderedRows {
            rows: BTreeMap::new(alloc),
            counts: [0; 6],
        }
    }

    /// How many rows the table has.
    pub(crate) fn count(&self, table: Table) -> u64
        ensures { result ≡ count_by (is_of table) self.now }
    {
        self.counts[usize::from(table.number())]
    }

    /// The row of the key.
    pub(crate) fn get(&self, find: &Find) -> Option<&Change>
        ensures { option_copied result ≡ row_at (asked_key find.now) self.now }
    {
        let rows = &self.rows;
        // a longer name isn't that of a row
        let key = StoredKey::new(find.key())?;
        rows.get(&key)
    }

    /// Puts a row in the place of that of its key, and answers what stood there. An error changes nothing, and comes only where nothing
    /// stands there.
    pub(crate) fn put(&mut self, row: Change) -> Result<Option<Change>, AllocError>
        requires { Fits row }
        ensures ok { OnOk result (self.new ≡ put row self.old) }
        ensures before { IfOk result (λ before. before ≡ row_at (key_of row) self.old) }
        ensures fits { IfOk result (λ before. IfSome before Fits) }
        ensures err { OnErr result (self.new ≡ self.old) }
        ensures absent { OnErr result (row_at (key_of row) self.old ≡ None) }
    {
        let table = row.table();
        let key = stored_key(&row);
        // so many rows can't be kept that a count has no next one
        let _ = self.rows.len();
        let before = self.rows.insert(key, row)?;
        if before.is_none() {
            self.counts[usize::from(table.number())] += 1;
        }
        Ok(before)
    }

    /// Takes back a row that was put, where this is what stood at its key before. It takes no memory.
    pub(crate) fn take_back(&mut self, row: &Change, before: Option<Change>)
        requires row { Fits row.now }
        requires before { IfSome before Fits }
        ensures { (rows : List Change) → AreRows rows → self.old ≡ put row.now rows
            → before ≡ row_at (key_of row.now) rows → self.new ≡ rows }
    {
        match before {
            // the row at the key is there, so no room is taken for it
            Some(before) => {
                let _ = self.put(before);
            }
            None => self.remove(row),
        }
    }

    /// Takes out the row of the key of this one.
    fn remove(&mut self, row: &Change)
        requires { Fits row.now }
        ensures { self.new ≡ without (key_of row.now) self.old }
    {
        let key = stored_key(row);
        if self.rows.remove(&key).is_some() {
            self.counts[usize::from(row.table().number())] -= 1;
        }
    }

    /// The rows of a table, where they stand.
    pub(crate) fn of_table(&self, table: Table) -> Range<'_, StoredKey, Change>
        ensures { values_of result ≡ filter (is_of table) self.now }
    {
        let number = table.number();
        let first = StoredKey::before_table(number);
        let end = StoredKey::before_table(number + 1);
        self.rows
            .range((Bound::Included(first), Bound::Excluded(end)))
    }

    /// The results of a computer, where they stand. None where the name is longer than any that is kept, so that it has none.
    pub(crate) fn of_computer(&self, computer: &Text) -> Option<Range<'_, StoredKey, Change>>
        ensures { MatchOption result (filter (is_result_of computer.now) self.now ≡ [])
            (λ rows. values_of rows ≡ filter (is_result_of computer.now) self.now) }
    {
        let rows = &self.rows;
        let first = StoredKey::new(KeyParts::named(Table::Results, computer, 0))?;
        let last = StoredKey::new(KeyParts::named(Table::Results, computer, u64::MAX))?;
        Some(rows.range((Bound::Included(first), Bound::Included(last))))
    }
}

/// The key of a row as it is kept.
fn stored_key(row: &Change) -> StoredKey
    requires { Fits row.now }
    ensures { shown_key result ≡ key_of row.now }
{
    match StoredKey::new(row.key()) {
        Some(key) => key,
        None => unreachable!(),
    }
}
