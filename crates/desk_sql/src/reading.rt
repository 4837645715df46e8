ghost use Rattle.std.specs.Prelude.{◌≡◌, true, IfOk};
ghost use Rattle.desk_keep.specs.declared.table.Table.TheVariants.{Sites, Actions, Files, Reports};
ghost use Rattle.desk_keep.specs.Tables.{is_of, without_text};

use crate::columns::narrow;
use crate::row::Row;
use crate::stop::Stop;
use act_rules::{Note, Outcome};
use desk_base::Bytes;
use desk_keep::{Change, ReportRow, ResultRow, Table};
use report_text::read_outcome;
use std::alloc::Global;

/// The row of a table, by the columns in their order.
pub(crate) fn row_of(alloc: Global, table: Table, row: Row) -> Result<Change, Stop>
    ensures { IfOk result (λ change. is_of table change ≡ true) }
{
    match table {
        Table::Sites => site_of(alloc, row),
        Table::Actions => action_of(alloc, row),
        Table::Files => file_of(row),
        Table::Computers => Ok(Change::Computer(row.text(alloc, 0)?)),
        Table::Reports => report_of(alloc, &row),
        Table::Results => Ok(Change::Result(result_of(alloc, &row)?)),
    }
}

fn site_of(alloc: Global, mut row: Row) -> Result<Change, Stop>
    ensures { IfOk result (λ change. is_of Sites change ≡ true) }
{
    Ok(Change::Site {
        name: row.text(alloc, 0)?,
        version: row.number(1)?,
        text: row.take_bytes(2)?,
    })
}

/// The row of a site without its text, by the columns of its name and version.
pub(crate) fn version_of(alloc: Global, row: &Row) -> Result<Change, Stop>
    ensures site { IfOk result (λ change. is_of Sites change ≡ true) }
    ensures bare { IfOk result (λ change. without_text change ≡ change) }
{
    Ok(Change::Site {
        name: row.text(alloc, 0)?,
        version: row.number(1)?,
        text: Bytes::new(alloc),
    })
}

fn action_of(alloc: Global, mut row: Row) -> Result<Change, Stop>
    ensures { IfOk result (λ change. is_of Actions change ≡ true) }
{
    Ok(Change::Action {
        id: row.number(0)?,
        text: row.take_bytes(1)?,
        digest: row.digest(2)?,
    })
}

fn file_of(mut row: Row) -> Result<Change, Stop>
    ensures { IfOk result (λ change. is_of Files change ≡ true) }
{
    Ok(Change::File {
        digest: row.digest(0)?,
        bytes: row.take_bytes(1)?,
    })
}

fn report_of(alloc: Global, row: &Row) -> Result<Change, Stop>
    ensures { IfOk result (λ change. is_of Reports change ≡ true) }
{
    Ok(Change::Report {
        computer: row.text(alloc, 0)?,
        seq: row.number(1)?,
        digest: row.digest(2)?,
    })
}

fn result_of(alloc: Global, row: &Row) -> Result<ResultRow, Stop> {
    Ok(ResultRow {
        computer: row.text(alloc, 0)?,
        row: ReportRow {
            action: row.number(1)?,
            number: narrow(row.signed(2)?)?,
            begun: row.signed(4)?,
            end: end_of(row)?,
            note: Note {
                exit: row.number_or_null(6)?,
                place: place_of(row)?,
            },
        },
        seq: row.number(9)?,
    })
}

/// When and how a row ended, if it has.
fn end_of(row: &Row) -> Result<Option<(i64, Outcome)>, Stop> {
    let word = row.word(3)?;
    match row.number_or_null(5)? {
        Some(moment) => match read_outcome(word) {
            Some(outcome) => Ok(Some((moment, outcome))),
            None => Err(Stop::OtherForm),
        },
        None if word == b"running".as_slice() => Ok(None),
        None => Err(Stop::OtherForm),
    }
}

/// Where it failed, if that is told.
fn place_of(row: &Row) -> Result<Option<(u32, u32)>, Stop> {
    match (row.number_or_null(7)?, row.number_or_null(8)?) {
        (Some(component), Some(line)) => Ok(Some((narrow(component)?, narrow(line)?))),
        (None, None) => Ok(None),
        _ => Err(Stop::OtherForm),
    }
}
