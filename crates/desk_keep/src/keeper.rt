ghost use Rattle.std.specs.Prelude.{All};
ghost use Rattle.desk_keep.specs.Keys.{asked_key};
ghost use Rattle.desk_keep.specs.Forms.{Fits};
ghost use Rattle.desk_keep.specs.Tables.{is_of, is_result_of};
ghost use Rattle.desk_keep.specs.Views.{KeeperView};
ghost use Rattle.desk_keep.specs.Calls.{Lists, ListsVersions, Opens, Puts, Gets, ListsBy, CountsRows};

use crate::{Applied, Change, Counted, Find, Found, Listed, Table};
use rel_lexer::Text;

/// What keeps the tables.
pub trait Keeper {
    /// What it tells of itself.
    ghost told: { Self → KeeperView };

    /// Opens what is kept at a place.
    fn open(&mut self, place: &Text) -> Applied
        ensures { Opens (told self.old) result (told self.new) };

    /// Puts each row of a batch in order, or none.
    fn apply(&mut self, batch: &[Change]) -> Applied
        requires { All Fits batch.now }
        ensures { Puts batch.now (told self.old) result (told self.new) };

    /// The row of a key.
    fn get(&mut self, find: &Find) -> Found
        ensures { Gets (asked_key find.now) (told self.old) result (told self.new) };

    /// The rows of a table.
    fn list(&mut self, table: Table) -> Listed
        ensures { ListsBy (Lists (is_of table)) (told self.old) result (told self.new) };

    /// The rows of the sites without their texts.
    fn versions(&mut self) -> Listed
        ensures { ListsBy ListsVersions (told self.old) result (told self.new) };

    /// The results of a computer.
    fn results(&mut self, computer: &Text) -> Listed
        ensures { ListsBy (Lists (is_result_of computer.now)) (told self.old) result (told self.new) };

    /// How many rows a table has.
    fn count(&mut self, table: Table) -> Counted
        ensures { CountsRows (is_of table) (told self.old) result (told self.new) };
}
