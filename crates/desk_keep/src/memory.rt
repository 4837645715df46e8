ghost use Rattle.std.specs.Prelude.{◌≡◌, All, IsTrue};
ghost use Rattle.desk_keep.specs.Keys.{asked_key};
ghost use Rattle.desk_keep.specs.Forms.{Fits};
ghost use Rattle.desk_keep.specs.Tables.{is_of, is_result_of, AreRows};
ghost use Rattle.desk_keep.specs.Calls.{Lists, ListsVersions, Opens, Puts, Gets, ListsBy, CountsRows};
ghost use Rattle.desk_keep.specs.Memory.{empty_keeper, keeper_view, CallsAsListed, ReadsAsListed};

use crate::{Applied, Change, Counted, Find, Found, Keeper, Listed, SureKeeper, Table};
use desk_base::Calls;
use rel_lexer::Text;
use std::alloc::Global;
use std::marker::Model;

/// A keeper in memory.
#[derive(Drop)]
pub struct MemoryKeeper {
    keeper: SureKeeper,
    applies: Calls,
    reads: Calls,
}

impl Model for MemoryKeeper {
    ghost use Rattle.desk_keep.specs.Memory.{KeeperState};
    ghost use Rattle.desk_keep.specs.Tables.{AreRows};

    ghost Value = { KeeperState };

    ghost view = { λ k. record { rows = k.keeper; applies = k.applies; reads = k.reads } };

    ghost invariant = { λ k. AreRows k.keeper };
}

impl MemoryKeeper {
    /// A keeper without rows. The applies and the reading calls with these numbers fail, each counted from 1; opening is a reading call.
    pub fn new(alloc: Global, applies: Vec<u32>, reads: Vec<u32>) -> MemoryKeeper
        ensures { result ≡ empty_keeper applies.items reads.items }
    {
        MemoryKeeper {
            keeper: SureKeeper::new(alloc),
            applies: Calls::new(alloc, applies),
            reads: Calls::new(alloc, reads),
        }
    }

    /// Counts a reading call, and answers whether it fails.
    fn read_fails(&mut self) -> bool
        ensures reads { ReadsAsListed (IsTrue result) self.old self.new }
        ensures good { AreRows self.old.rows }
    {
        let fails = self.reads.begin();
        if fails {
            self.reads.fault();
        }
        fails
    }
}

impl Keeper for MemoryKeeper {
    ghost told = { keeper_view };

    fn open(&mut self, place: &Text) -> Applied
        ensures opens { Opens (keeper_view self.old) result (keeper_view self.new) }
        ensures reads { ReadsAsListed (result ≡ Applied.Failed) self.old self.new }
    {
        if self.read_fails() {
            return Applied::Failed;
        }
        self.keeper.open(place)
    }

    fn apply(&mut self, batch: &[Change]) -> Applied
        requires { All Fits batch.now }
        ensures puts { Puts batch.now (keeper_view self.old) result (keeper_view self.new) }
        ensures calls { CallsAsListed (result ≡ Applied.Failed) self.old.applies self.new.applies }
        ensures rest { self.new ≡ record self.old { rows = self.new.rows; applies = self.new.applies } }
    {
        if self.applies.begin() {
            self.applies.fault();
            return Applied::Failed;
        }
        self.keeper.apply(batch)
    }

    fn get(&mut self, find: &Find) -> Found
        ensures gets { Gets (asked_key find.now) (keeper_view self.old) result (keeper_view self.new) }
        ensures reads { ReadsAsListed (result ≡ Found.Failed) self.old self.new }
    {
        if self.read_fails() {
            return Found::Failed;
        }
        self.keeper.get(find)
    }

    fn list(&mut self, table: Table) -> Listed
        ensures lists { ListsBy (Lists (is_of table)) (keeper_view self.old) result (keeper_view self.new) }
        ensures reads { ReadsAsListed (result ≡ Listed.Failed) self.old self.new }
    {
        if self.read_fails() {
            return Listed::Failed;
        }
        self.keeper.list(table)
    }

    fn versions(&mut self) -> Listed
        ensures lists { ListsBy ListsVersions (keeper_view self.old) result (keeper_view self.new) }
        ensures reads { ReadsAsListed (result ≡ Listed.Failed) self.old self.new }
    {
        if self.read_fails() {
            return Listed::Failed;
        }
        self.keeper.versions()
    }

    fn results(&mut self, computer: &Text) -> Listed
        ensures lists { ListsBy (Lists (is_result_of computer.now)) (keeper_view self.old) result (keeper_view self.new) }
        ensures reads { ReadsAsListed (result ≡ Listed.Failed) self.old self.new }
    {
        if self.read_fails() {
            return Listed::Failed;
        }
        self.keeper.results(computer)
    }

    fn count(&mut self, table: Table) -> Counted
        ensures counts { CountsRows (is_of table) (keeper_view self.old) result (keeper_view self.new) }
        ensures reads { ReadsAsListed (result ≡ Counted.Failed) self.old self.new }
    {
        if self.read_fails() {
            return Counted::Failed;
        }
        self.keeper.count(table)
    }
}
