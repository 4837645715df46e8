ghost use Rattle.std.specs.Prelude.{◌≡◌, ◌++◌, [], ◌∷◌, true, All, IfOk, OnOk};
ghost use Rattle.desk_keep.specs.declared.table.Table.TheVariants.{Sites};
ghost use Rattle.desk_keep.specs.Tables.{is_of, is_result_of, without_text, AreRows};

use crate::reading::{row_of, version_of};
use crate::row::Row;
use crate::stop::Stop;
use desk_keep::{Change, Changes, Table};
use rel_lexer::Text;
use std::alloc::Global;

/// The rows of a table, from those that a query gave.
pub(crate) fn listed(alloc: Global, table: Table, rows: Vec<Row>) -> Result<Changes, Stop>
    ensures rows { IfOk result AreRows }
    ensures asked { IfOk result (All (λ row. is_of table row ≡ true)) }
{
    let mut changes = Changes::new(alloc);
    for row in rows {
        let change = row_of(alloc, table, row)?;
        push_next(&mut changes, change)?;
    }
    Ok(changes)
}

/// The rows of the sites without their texts, likewise.
pub(crate) fn listed_versions(alloc: Global, rows: &[Row]) -> Result<Changes, Stop>
    ensures rows { IfOk result AreRows }
    ensures asked { IfOk result (All (λ row. (is_of Sites row ≡ true) × (without_text row ≡ row))) }
{
    let mut changes = Changes::new(alloc);
    for row in rows {
        let change = version_of(alloc, row)?;
        push_next(&mut changes, change)?;
    }
    Ok(changes)
}

/// The results of a computer, likewise.
pub(crate) fn listed_results(
    alloc: Global,
    computer: &Text,
    rows: Vec<Row>,
) -> Result<Changes, Stop>
    ensures rows { IfOk result AreRows }
    ensures asked { IfOk result (All (λ row. is_result_of computer.now row ≡ true)) }
{
    let mut changes = Changes::new(alloc);
    for row in rows {
        let change = row_of(alloc, Table::Results, row)?;
        if !change.is_result_of(computer.as_str()) {
            return Err(Stop::OtherForm);
        }
        push_next(&mut changes, change)?;
    }
    Ok(changes)
}

/// Appends a row that comes next.
fn push_next(changes: &mut Changes, row: Change) -> Result<(), Stop>
    ensures pushed { OnOk result (changes.new ≡ changes.old ++ row ∷ []) }
    ensures rows { OnOk result (AreRows changes.old → AreRows changes.new) }
{
    if changes.push_next(row)? {
        return Ok(());
    }
    Err(Stop::OtherForm)
}
