use desk_base::Bytes;
use desk_sql::{Cell, Row, Value};
use sqlite::Row as SqliteRow;
use sqlite::types::ValueRef;
use std::alloc::{AllocError, Global};

/// The values of a statement's parameters, as SQLite takes them.
pub(crate) fn bound<'v>(
    alloc: Global,
    values: &[Value<'v>],
) -> Result<Vec<ValueRef<'v>>, AllocError> {
    let mut bound = Vec::new(alloc);
    for value in values {
        bound.push(value_ref(*value))?;
    }
    Ok(bound)
}

fn value_ref<'v>(value: Value<'v>) -> ValueRef<'v> {
    match value {
        Value::Null => ValueRef::Null,
        Value::Number(number) => ValueRef::Int(number),
        Value::Text(bytes) => ValueRef::Text(bytes),
        Value::Bytes(bytes) => ValueRef::Blob(bytes),
    }
}

/// The rows that a query gave. Each is let go of when it is told.
pub(crate) fn told(alloc: Global, rows: Vec<SqliteRow>) -> Result<Vec<Row>, AllocError> {
    let mut told = Vec::new(alloc);
    for row in rows {
        told.push(told_row(alloc, &row)?)?;
    }
    Ok(told)
}

fn told_row(alloc: Global, row: &SqliteRow) -> Result<Row, AllocError> {
    let mut cells = Vec::new(alloc);
    for at in 0..row.column_count() {
        let told = match row.get_ref(at) {
            Ok(value) => cell(alloc, value)?,
            Err(_) => Cell::Other,
        };
        cells.push(told)?;
    }
    Ok(Row::new(cells))
}

fn cell(alloc: Global, value: ValueRef<'_>) -> Result<Cell, AllocError> {
    Ok(match value {
        ValueRef::Null => Cell::Null,
        ValueRef::Int(number) => Cell::Number(number),
        ValueRef::Real(_) => Cell::Other,
        ValueRef::Text(bytes) => Cell::Text(Bytes::from_slice(alloc, bytes)?),
        ValueRef::Blob(bytes) => Cell::Bytes(Bytes::from_slice(alloc, bytes)?),
    })
}
