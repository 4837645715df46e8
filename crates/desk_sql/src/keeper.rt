ghost use Rattle.std.specs.Prelude.{◌≡◌, ◌⊎◌, true, None, All, IfOk, IfSome, IsTrue, OnErr};
ghost use Rattle.desk_base.specs.Counts.{CountsFaults};
ghost use Rattle.desk_keep.specs.Keys.{key_of, asked_key};
ghost use Rattle.desk_keep.specs.Forms.{Fits};
ghost use Rattle.desk_keep.specs.declared.table.Table.TheVariants.{Sites};
ghost use Rattle.desk_keep.specs.Tables.{is_of, is_result_of, without_text, AreRows};

use crate::database::Database;
use crate::open_keep::OpenKeep;
use crate::opening::Opening;
use crate::stop::Stop;
use desk_keep::{Applied, Change, Changes, Counted, Find, Found, Keeper, Listed, Table};
use rel_lexer::Text;

/// A keeper in a database of SQL in a file. It tells no rows. Each refusal of the database but want of memory is a fault, and so is a row of
/// another form. After a fault with which the database can't go on, the next call opens the file anew.
#[derive(Drop)]
pub struct SqlKeeper<'a, D: Database> {
    rt: &'a HostRuntime,
    opening: Opening,
    /// The file that was opened last. None where that failed, and after closing.
    place: Option<Text>,
    keep: Option<OpenKeep<D>>,
    faults: u64,
}

impl<'a, D: Database> SqlKeeper<'a, D> {
    /// A keeper of no file yet, which opens files so. Its faults are told on standard error.
    pub fn new(rt: &'a HostRuntime, opening: Opening) -> SqlKeeper<'a, D>
        ensures { result.faults ≡ 0 }
    {
        SqlKeeper {
            rt,
            opening,
            place: None,
            keep: None,
            faults: 0,
        }
    }

    /// Closes the file, which alone holds all that was kept where the answer is `Done`. Nothing is open from then on. Where nothing was open,
    /// nothing is done.
    pub fn close(&mut self) -> Applied
        ensures { CountsFaults (result ≡ Applied.Failed) self.old.faults self.new.faults }
    {
        let closed = self.let_go();
        let applied = self.applied("close", closed);
        self.place = None;
        applied
    }

    /// Closes the file. One that was lost in a fault is opened anew for that, since what it holds may stand in two.
    fn let_go(&mut self) -> Result<(), Stop>
        ensures { self.new.faults ≡ self.old.faults }
    {
        if self.place.is_none() {
            return Ok(());
        }
        self.reopen()?;
        match self.keep.take() {
            Some(keep) => keep.close(),
            None => Ok(()),
        }
    }

    /// Opens the file where it isn't open.
    fn reopen(&mut self) -> Result<(), Stop>
        ensures { self.new.faults ≡ self.old.faults }
    {
        if self.keep.is_some() {
            return Ok(());
        }
        let Some(place) = &self.place else {
            return Err(Stop::NotOpen);
        };
        self.keep = Some(OpenKeep::open(self.rt, place.as_str(), self.opening)?);
        Ok(())
    }

    /// Lets go of the file of before, which may be the same, and opens one.
    fn open_at(&mut self, place: &Text) -> Result<(), Stop>
        ensures { self.new.faults ≡ self.old.faults }
    {
        self.keep = None;
        self.place = None;
        self.place = Some(place.copy()?);
        self.reopen()
    }

    fn put(&mut self, batch: &[Change]) -> Result<(), Stop>
        ensures { self.new.faults ≡ self.old.faults }
    {
        self.reopen()?;
        match &mut self.keep {
            Some(keep) => keep.apply(batch),
            None => Err(Stop::NotOpen),
        }
    }

    fn find(&mut self, find: &Find) -> Result<Option<Change>, Stop>
        ensures found { IfOk result (λ found. IfSome found (λ row. (key_of row ≡ asked_key find.now) × Fits row)) }
        ensures faults { self.new.faults ≡ self.old.faults }
    {
        self.reopen()?;
        match &mut self.keep {
            Some(keep) => keep.find(find),
            None => Err(Stop::NotOpen),
        }
    }

    fn rows_of(&mut self, table: Table) -> Result<Changes, Stop>
        ensures rows { IfOk result AreRows }
        ensures asked { IfOk result (All (λ row. is_of table row ≡ true)) }
        ensures faults { self.new.faults ≡ self.old.faults }
    {
        self.reopen()?;
        match &mut self.keep {
            Some(keep) => keep.list(table),
            None => Err(Stop::NotOpen),
        }
    }

    fn versions_of_sites(&mut self) -> Result<Changes, Stop>
        ensures rows { IfOk result AreRows }
        ensures asked { IfOk result (All (λ row. (is_of Sites row ≡ true) × (without_text row ≡ row))) }
        ensures faults { self.new.faults ≡ self.old.faults }
    {
        self.reopen()?;
        match &mut self.keep {
            Some(keep) => keep.versions(),
            None => Err(Stop::NotOpen),
        }
    }

    fn results_of(&mut self, computer: &Text) -> Result<Changes, Stop>
        ensures rows { IfOk result AreRows }
        ensures asked { IfOk result (All (λ row. is_result_of computer.now row ≡ true)) }
        ensures faults { self.new.faults ≡ self.old.faults }
    {
        self.reopen()?;
        match &mut self.keep {
            Some(keep) => keep.results(computer),
            None => Err(Stop::NotOpen),
        }
    }

    fn count_of(&mut self, table: Table) -> Result<u64, Stop>
        ensures { self.new.faults ≡ self.old.faults }
    {
        self.reopen()?;
        match &self.keep {
            Some(keep) => Ok(keep.count(table)),
            None => Err(Stop::NotOpen),
        }
    }

    /// Counts the fault of a call and tells it, and answers whether there was one: want of memory is none.
    fn is_fault(&mut self, call: &str, stop: Stop) -> bool
        ensures { CountsFaults (IsTrue result) self.old.faults self.new.faults }
    {
        if let Stop::Memory = stop {
            return false;
        }
        if stop.is_last() {
            self.keep = None;
        }
        self.faults = self.faults.saturating_add(1);
        let place = match &self.place {
            Some(place) => place.as_str(),
            None => "",
        };
        let _ = eprintln!(self.rt; "desk: keeper: {call} {place}: {stop}");
        true
    }

    fn applied(&mut self, call: &str, done: Result<(), Stop>) -> Applied
        ensures { CountsFaults (result ≡ Applied.Failed) self.old.faults self.new.faults }
    {
        match done {
            Ok(()) => Applied::Done,
            Err(stop) => {
                if self.is_fault(call, stop) {
                    return Applied::Failed;
                }
                Applied::Memory
            }
        }
    }

    fn listed(&mut self, call: &str, rows: Result<Changes, Stop>) -> Listed
        ensures ok { IfOk rows (λ list. result ≡ Listed.Changes list) }
        ensures err { OnErr rows ((result ≡ Listed.Failed) ⊎ (result ≡ Listed.Memory)) }
        ensures counts { CountsFaults (result ≡ Listed.Failed) self.old.faults self.new.faults }
    {
        match rows {
            Ok(rows) => Listed::Changes(rows),
            Err(stop) => {
                if self.is_fault(call, stop) {
                    return Listed::Failed;
                }
                Listed::Memory
            }
        }
    }
}

impl<'a, D: Database> Keeper for SqlKeeper<'a, D> {
    ghost told = { λ k. record { rows = None; faults = k.faults } };

    fn open(&mut self, place: &Text) -> Applied {
        match self.open_at(place) {
            Ok(()) => Applied::Done,
            Err(stop) => {
                let applied = self.applied("open", Err(stop));
                self.place = None;
                applied
            }
        }
    }

    fn apply(&mut self, batch: &[Change]) -> Applied {
        let put = self.put(batch);
        self.applied("apply", put)
    }

    fn get(&mut self, find: &Find) -> Found {
        match self.find(find) {
            Ok(Some(row)) => Found::Change(row),
            Ok(None) => Found::Nothing,
            Err(stop) => {
                if self.is_fault("get", stop) {
                    return Found::Failed;
                }
                Found::Memory
            }
        }
    }

    fn list(&mut self, table: Table) -> Listed {
        let rows = self.rows_of(table);
        self.listed("list", rows)
    }

    fn versions(&mut self) -> Listed {
        let rows = self.versions_of_sites();
        self.listed("versions", rows)
    }

    fn results(&mut self, computer: &Text) -> Listed {
        let rows = self.results_of(computer);
        self.listed("results", rows)
    }

    fn count(&mut self, table: Table) -> Counted {
        match self.count_of(table) {
            Ok(rows) => Counted::Rows(rows),
            Err(stop) => {
                if self.is_fault("count", stop) {
                    return Counted::Failed;
                }
                Counted::Memory
            }
        }
    }
}
