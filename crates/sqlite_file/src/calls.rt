//! The one call of a connection that runs statements, over any store.

use crate::rows::{bound, told};
use crate::stop::stop_of;
use desk_sql::{Answer, Stop, Value};
use sqlite::{Alter, Connection};
use std::alloc::Global;

/// Runs a statement. Without a clause, so that what calls it needs none of what `sqlite` promises.
pub(crate) fn run<S: Alter>(
    alloc: Global,
    connection: &mut Connection<S>,
    statement: &str,
    values: &[Value<'_>],
) -> Result<Answer, Stop> {
    let values = bound(alloc, values)?;
    if statement.starts_with("SELECT") {
        return match connection.query_all(statement, values.as_slice()) {
            Ok(rows) => Ok(Answer::Rows(told(alloc, rows)?)),
            Err(error) => Err(stop_of(error)),
        };
    }
    match connection.execute(statement, values.as_slice()) {
        Ok(changed) => Ok(Answer::Changed(changed)),
        Err(error) => Err(stop_of(error)),
    }
}
