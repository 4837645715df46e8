ghost use Rattle.std.specs.Prelude.{◌≡◌, true, All, IfOk, IfSome};
ghost use Rattle.desk_keep.specs.Keys.{key_of, asked_key};
ghost use Rattle.desk_keep.specs.Forms.{Fits};
ghost use Rattle.desk_keep.specs.declared.table.Table.TheVariants.{Sites};
ghost use Rattle.desk_keep.specs.Tables.{is_of, is_result_of, without_text, AreRows};

use crate::columns::{digits, text};
use crate::counting::table_counts;
use crate::database::{Database, Value, ask};
use crate::listing::{listed, listed_results, listed_versions};
use crate::opening::Opening;
use crate::reading::row_of;
use crate::row::Row;
use crate::schema::make_tables;
use crate::stop::Stop;
use crate::table_texts::{RESULTS, VERSIONS, table_texts};
use crate::transaction::{begin, end};
use crate::writing::put_row;
use desk_keep::{Change, Changes, Find, Table};
use rel_lexer::Text;
use std::alloc::Global;

/// A database that is open, and how many rows its tables have.
#[derive(Drop)]
pub(crate) struct OpenKeep<D: Database> {
    alloc: Global,
    base: D,
    counts: [u64; 6],
}

impl<D: Database> OpenKeep<D> {
    /// Opens the database in a file, and makes or migrates its tables where that is needed; none are made where they are to be found.
    pub(crate) fn open(
        rt: &HostRuntime,
        place: &str,
        opening: Opening,
    ) -> Result<OpenKeep<D>, Stop> {
        let mut base = D::open(rt, place, opening)?;
        make_tables(&mut base, opening)?;
        let counts = table_counts(&mut base)?;
        Ok(OpenKeep {
            alloc: rt.alloc(),
            base,
            counts,
        })
    }

    /// Puts all into the one file, and lets it go.
    pub(crate) fn close(self) -> Result<(), Stop> {
        self.base.close()?;
        Ok(())
    }

    /// How many rows the table has.
    pub(crate) fn count(&self, table: Table) -> u64 {
        self.counts[usize::from(table.number())]
    }

    /// Puts all rows of a batch in one transaction.
    pub(crate) fn apply(&mut self, batch: &[Change]) -> Result<(), Stop> {
        let mut counts = self.counts;
        begin(&mut self.base)?;
        let put = self.put_all(batch, &mut counts);
        end(&mut self.base, put)?;
        self.counts = counts;
        Ok(())
    }

    /// Puts the rows, and counts those of new keys.
    fn put_all(&mut self, batch: &[Change], counts: &mut [u64; 6]) -> Result<(), Stop> {
        for row in batch {
            if put_row(self.alloc, &mut self.base, row)? {
                let at = usize::from(row.table().number());
                counts[at] = counts[at].saturating_add(1);
            }
        }
        Ok(())
    }

    /// The row of a key.
    pub(crate) fn find(&mut self, find: &Find) -> Result<Option<Change>, Stop>
        ensures { IfOk result (λ found. IfSome found (λ row. (key_of row ≡ asked_key find.now) × Fits row)) }
    {
        let table = find.table();
        let Some(row) = self.found(find)? else {
            return Ok(None);
        };
        let row = row_of(self.alloc, table, row)?;
        if !find.is_of(&row) || !row.fits() {
            return Err(Stop::OtherForm);
        }
        Ok(Some(row))
    }

    /// The columns of the row of a key, if there is one.
    fn found(&mut self, find: &Find) -> Result<Option<Row>, Stop> {
        match find {
            Find::Site(name) | Find::Computer(name) => self.ask_key(find.table(), &[text(name)]),
            Find::Action(id) => match i64::try_from(*id) {
                Ok(id) => self.ask_key(Table::Actions, &[Value::Number(id)]),
                Err(_) => Ok(None),
            },
            Find::File(digest) => {
                let digits = digits(self.alloc, digest)?;
                self.ask_key(Table::Files, &[Value::Text(digits.as_slice())])
            }
            Find::Report(name, at) | Find::Result(name, at) => match i64::try_from(*at) {
                Ok(at) => self.ask_key(find.table(), &[text(name), Value::Number(at)]),
                Err(_) => Ok(None),
            },
        }
    }

    fn ask_key(&mut self, table: Table, key: &[Value<'_>]) -> Result<Option<Row>, Stop> {
        let rows = ask(&mut self.base, table_texts(table).find, key)?;
        Ok(rows.into_iter().next())
    }

    /// The rows of a table.
    pub(crate) fn list(&mut self, table: Table) -> Result<Changes, Stop>
        ensures rows { IfOk result AreRows }
        ensures asked { IfOk result (All (λ row. is_of table row ≡ true)) }
    {
        let rows = ask(&mut self.base, table_texts(table).list, &[])?;
        listed(self.alloc, table, rows)
    }

    /// The rows of the sites without their texts.
    pub(crate) fn versions(&mut self) -> Result<Changes, Stop>
        ensures rows { IfOk result AreRows }
        ensures asked { IfOk result (All (λ row. (is_of Sites row ≡ true) × (without_text row ≡ row))) }
    {
        let rows = ask(&mut self.base, VERSIONS, &[])?;
        listed_versions(self.alloc, rows.as_slice())
    }

    /// The results of a computer.
    pub(crate) fn results(&mut self, computer: &Text) -> Result<Changes, Stop>
        ensures rows { IfOk result AreRows }
        ensures asked { IfOk result (All (λ row. is_result_of computer.now row ≡ true)) }
    {
        let rows = ask(&mut self.base, RESULTS, &[text(computer)])?;
        listed_results(self.alloc, computer, rows)
    }
}
