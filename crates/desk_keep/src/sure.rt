ghost use Rattle.std.specs.Prelude.{◌≡◌, ◌≢◌, ◌⊎◌, [], All, IfOk, OnErr};
ghost use Rattle.desk_keep.specs.Keys.{asked_key};
ghost use Rattle.desk_keep.specs.Forms.{Fits};
ghost use Rattle.desk_keep.specs.Tables.{is_of, is_result_of};
ghost use Rattle.desk_keep.specs.Calls.{Lists, ListsVersions, Opens, Puts, Gets, ListsBy, CountsRows};
ghost use Rattle.desk_keep.specs.Memory.{sure_view};

use crate::batch::put_all;
use crate::listing::{results_of, rows_of, versions};
use crate::ordered_rows::OrderedRows;
use crate::{Applied, Change, Changes, Counted, Find, Found, Keeper, Listed, Table};
use rel_lexer::Text;
use std::alloc::{AllocError, Global};
use std::marker::Model;

/// A keeper in memory of which no call fails. Contracts see the rows of its tables.
#[derive(Drop)]
pub struct SureKeeper {
    alloc: Global,
    rows: OrderedRows,
}

impl Model for SureKeeper {
    ghost use Rattle.std.specs.Prelude.{List};
    ghost use Rattle.desk_keep.specs.declared.change.Change.{Change};
    ghost use Rattle.desk_keep.specs.Tables.{AreRows};

    ghost Value = { List Change };

    ghost view = { λ k. k.rows };

    ghost invariant = { λ k. AreRows k.rows };
}

impl SureKeeper {
    /// A keeper without rows. It takes no memory.
    pub fn new(alloc: Global) -> SureKeeper
        ensures { result ≡ [] }
    {
        SureKeeper {
            alloc,
            rows: OrderedRows::new(alloc),
        }
    }
}

/// The answer of a call that lists.
fn listed(rows: Result<Changes, AllocError>) -> Listed
    ensures ok { IfOk rows (λ list. result ≡ Listed.Changes list) }
    ensures err { OnErr rows (result ≡ Listed.Memory) }
{
    match rows {
        Ok(rows) => Listed::Changes(rows),
        Err(_) => Listed::Memory,
    }
}

impl Keeper for SureKeeper {
    ghost told = { sure_view };

    fn open(&mut self, _place: &Text) -> Applied
        ensures opens { Opens (sure_view self.old) result (sure_view self.new) }
        ensures rest { self.new ≡ self.old }
        ensures never { result ≢ Applied.Failed }
    {
        // seen, so that the rows are known to be in order
        let _rows = &self.rows;
        Applied::Done
    }

    fn apply(&mut self, batch: &[Change]) -> Applied
        requires { All Fits batch.now }
        ensures puts { Puts batch.now (sure_view self.old) result (sure_view self.new) }
        ensures never { result ≢ Applied.Failed }
    {
        match put_all(self.alloc, &mut self.rows, batch) {
            Ok(()) => Applied::Done,
            Err(_) => Applied::Memory,
        }
    }

    fn get(&mut self, find: &Find) -> Found
        ensures gets { Gets (asked_key find.now) (sure_view self.old) result (sure_view self.new) }
        ensures rest { self.new ≡ self.old }
        ensures never { result ≢ Found.Failed }
    {
        match self.rows.get(find) {
            Some(row) => found(row),
            None => Found::Nothing,
        }
    }

    fn list(&mut self, table: Table) -> Listed
        ensures lists { ListsBy (Lists (is_of table)) (sure_view self.old) result (sure_view self.new) }
        ensures rest { self.new ≡ self.old }
        ensures never { result ≢ Listed.Failed }
    {
        listed(rows_of(self.alloc, &self.rows, table))
    }

    fn versions(&mut self) -> Listed
        ensures lists { ListsBy ListsVersions (sure_view self.old) result (sure_view self.new) }
        ensures rest { self.new ≡ self.old }
        ensures never { result ≢ Listed.Failed }
    {
        listed(versions(self.alloc, &self.rows))
    }

    fn results(&mut self, computer: &Text) -> Listed
        ensures lists { ListsBy (Lists (is_result_of computer.now)) (sure_view self.old) result (sure_view self.new) }
        ensures rest { self.new ≡ self.old }
        ensures never { result ≢ Listed.Failed }
    {
        listed(results_of(self.alloc, &self.rows, computer))
    }

    fn count(&mut self, table: Table) -> Counted
        ensures counts { CountsRows (is_of table) (sure_view self.old) result (sure_view self.new) }
        ensures rest { self.new ≡ self.old }
        ensures never { result ≢ Counted.Failed }
    {
        Counted::Rows(self.rows.count(table))
    }
}

/// The answer of a call that found this row.
fn found(row: &Change) -> Found
    ensures { (result ≡ Found.Change row.now) ⊎ (result ≡ Found.Memory) }
{
    match row.copy() {
        Ok(row) => Found::Change(row),
        Err(_) => Found::Memory,
    }
}
