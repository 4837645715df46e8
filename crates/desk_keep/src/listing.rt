ghost use Rattle.std.specs.Prelude.{◌≡◌, IfOk, map, filter};
ghost use Rattle.std.specs.Map.{values_of};
ghost use Rattle.desk_keep.specs.declared.table.Table.TheVariants.{Sites};
ghost use Rattle.desk_keep.specs.Tables.{is_of, is_result_of, without_text};

use crate::key::StoredKey;
use crate::ordered_rows::OrderedRows;
use crate::{Change, Changes, Table};
use rel_lexer::Text;
use std::alloc::{AllocError, Global};
use std::collections::btree_map::Range;

/// The rows of a table.
pub(crate) fn rows_of(
    alloc: Global,
    rows: &OrderedRows,
    table: Table,
) -> Result<Changes, AllocError>
    ensures { IfOk result (λ list. list ≡ filter (is_of table) rows.now) }
{
    copies(alloc, rows.of_table(table))
}

/// The rows of the sites without their texts.
pub(crate) fn versions(alloc: Global, rows: &OrderedRows) -> Result<Changes, AllocError>
    ensures { IfOk result (λ list. list ≡ map without_text (filter (is_of Sites) rows.now)) }
{
    let mut list = Changes::new(alloc);
    for (_, row) in rows.of_table(Table::Sites) {
        list.push(row.copy_without_text(alloc)?)?;
    }
    Ok(list)
}

/// The results of a computer.
pub(crate) fn results_of(
    alloc: Global,
    rows: &OrderedRows,
    computer: &Text,
) -> Result<Changes, AllocError>
    ensures { IfOk result (λ list. list ≡ filter (is_result_of computer.now) rows.now) }
{
    match rows.of_computer(computer) {
        Some(results) => copies(alloc, results),
        None => Ok(Changes::new(alloc)),
    }
}

fn copies(alloc: Global, rows: Range<'_, StoredKey, Change>) -> Result<Changes, AllocError>
    ensures { IfOk result (λ list. list ≡ values_of rows.entry) }
{
    let mut list = Changes::new(alloc);
    for (_, row) in rows {
        list.push(row.copy()?)?;
    }
    Ok(list)
}
