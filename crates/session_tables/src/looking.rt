// What of the kept rows a look asks for.
ghost use Rattle.std.specs.Prelude.{◌↔◌, ◌≡◌, IfOk, IsErrOf, filter, is_some, map};
ghost use Rattle.desk_keep.specs.declared.table.Table.TheVariants.{Sites};
ghost use Rattle.desk_keep.specs.Keys.{asked_key};
ghost use Rattle.desk_keep.specs.Tables.{is_of, is_result_of, row_at, without_text};
ghost use Rattle.session_tables.specs.Inside.{Learns};

use crate::stop::Stop;
use desk_keep::{Change, Changes, Find, Found, Keeper, Listed, Table};
use rel_lexer::Text;

/// The row of a key, if there is one.
pub(crate) fn row_of<K: Keeper>(keeper: &mut K, find: &Find) -> Result<Option<Change>, Stop>
    ensures { Learns (row_at (asked_key find.now)) (K.told keeper.old) result (K.told keeper.new) }
{
    match keeper.get(find) {
        Found::Change(row) => Ok(Some(row)),
        Found::Nothing => Ok(None),
        Found::Failed => Err(Stop::Keeper),
        Found::Memory => Err(Stop::Memory),
    }
}

/// Whether a key has a row.
pub(crate) fn has_row<K: Keeper>(keeper: &mut K, find: &Find) -> Result<bool, Stop>
    ensures { Learns (λ rows. is_some (row_at (asked_key find.now) rows)) (K.told keeper.old) result (K.told keeper.new) }
{
    Ok(row_of(keeper, find)?.is_some())
}

/// The rows of a table.
pub(crate) fn rows_of<K: Keeper>(keeper: &mut K, table: Table) -> Result<Changes, Stop>
    ensures { Learns (filter (is_of table)) (K.told keeper.old) result (K.told keeper.new) }
{
    listed(keeper.list(table))
}

/// The rows of the sites, without their texts.
pub(crate) fn versions_of<K: Keeper>(keeper: &mut K) -> Result<Changes, Stop>
    ensures { Learns (λ rows. map without_text (filter (is_of Sites) rows)) (K.told keeper.old) result (K.told keeper.new) }
{
    listed(keeper.versions())
}

/// The rows of a computer's results.
pub(crate) fn results_of<K: Keeper>(keeper: &mut K, computer: &Text) -> Result<Changes, Stop>
    ensures { Learns (filter (is_result_of computer.now)) (K.told keeper.old) result (K.told keeper.new) }
{
    listed(keeper.results(computer))
}

/// The rows that a keeper lists.
fn listed(rows: Listed) -> Result<Changes, Stop>
    ensures ok { IfOk result (λ list. rows ≡ Listed.Changes list) }
    ensures keeper { IsErrOf result Stop.Keeper ↔ (rows ≡ Listed.Failed) }
{
    match rows {
        Listed::Changes(rows) => Ok(rows),
        Listed::Failed => Err(Stop::Keeper),
        Listed::Memory => Err(Stop::Memory),
    }
}
