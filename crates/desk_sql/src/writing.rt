use crate::columns::{digits, number, number_or_none, text};
use crate::database::{Answer, Database, Value};
use crate::stop::Stop;
use crate::table_texts::table_texts;
use desk_base::Bytes;
use desk_keep::{Change, ResultRow, Table};
use rel_lexer::Text;
use report_text::outcome_field;
use std::alloc::Global;

/// Puts a row, and answers whether none of its key was there.
pub(crate) fn put_row<D: Database>(
    alloc: Global,
    base: &mut D,
    row: &Change,
) -> Result<bool, Stop> {
    match row {
        Change::Site {
            name,
            version,
            text,
        } => put_site(base, name, *version, text),
        Change::Action { id, text, digest } => put_action(alloc, base, *id, text, digest),
        Change::File { digest, bytes } => put_file(alloc, base, digest, bytes),
        Change::Computer(name) => put(base, Table::Computers, &[text(name)]),
        Change::Report {
            computer,
            seq,
            digest,
        } => put_report(alloc, base, computer, *seq, digest),
        Change::Result(last) => put_result(base, last),
    }
}

fn put_site<D: Database>(
    base: &mut D,
    name: &Text,
    version: u64,
    bytes: &Bytes,
) -> Result<bool, Stop> {
    let version = number(version)?;
    put(
        base,
        Table::Sites,
        &[text(name), version, Value::Bytes(bytes.as_slice())],
    )
}

fn put_action<D: Database>(
    alloc: Global,
    base: &mut D,
    id: u64,
    bytes: &Bytes,
    digest: &[u8; 32],
) -> Result<bool, Stop> {
    let digits = digits(alloc, digest)?;
    let id = number(id)?;
    put(
        base,
        Table::Actions,
        &[
            id,
            Value::Bytes(bytes.as_slice()),
            Value::Text(digits.as_slice()),
        ],
    )
}

fn put_file<D: Database>(
    alloc: Global,
    base: &mut D,
    digest: &[u8; 32],
    bytes: &Bytes,
) -> Result<bool, Stop> {
    let digits = digits(alloc, digest)?;
    put(
        base,
        Table::Files,
        &[
            Value::Text(digits.as_slice()),
            Value::Bytes(bytes.as_slice()),
        ],
    )
}

fn put_report<D: Database>(
    alloc: Global,
    base: &mut D,
    computer: &Text,
    seq: u64,
    digest: &[u8; 32],
) -> Result<bool, Stop> {
    let digits = digits(alloc, digest)?;
    let seq = number(seq)?;
    put(
        base,
        Table::Reports,
        &[text(computer), seq, Value::Text(digits.as_slice())],
    )
}

fn put_result<D: Database>(base: &mut D, last: &ResultRow) -> Result<bool, Stop> {
    let row = &last.row;
    let (component, line) = match row.note.place {
        Some((component, line)) => (Some(i64::from(component)), Some(i64::from(line))),
        None => (None, None),
    };
    put(
        base,
        Table::Results,
        &[
            text(&last.computer),
            number(row.action)?,
            Value::Number(i64::from(row.number)),
            Value::Text(outcome_field(row.end)),
            Value::Number(row.begun),
            number_or_none(row.end.map(|end| end.0)),
            number_or_none(row.note.exit),
            number_or_none(component),
            number_or_none(line),
            number(last.seq)?,
        ],
    )
}

/// Adds the row of these columns, or writes it over that of its key. Answers whether it was added.
fn put<D: Database>(base: &mut D, table: Table, columns: &[Value<'_>]) -> Result<bool, Stop> {
    let texts = table_texts(table);
    if let Answer::Changed(1) = base.run(texts.add, columns)? {
        return Ok(true);
    }
    if let Some(replace) = texts.replace {
        base.run(replace, columns)?;
    }
    Ok(false)
}
