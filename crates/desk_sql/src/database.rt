use crate::opening::Opening;
use crate::row::Row;
use crate::stop::Stop;

/// A value as it is given to a statement.
#[derive(Clone, Copy)]
pub enum Value<'a> {
    Null,
    Number(i64),
    Text(&'a [u8]),
    Bytes(&'a [u8]),
}

/// What a statement did.
#[derive(Drop)]
pub enum Answer {
    /// It is no query, and changed so many rows.
    Changed(usize),
    /// It is a query, and gave these.
    Rows(Vec<Row>),
}

/// A database of SQL in a file, as much of one as a keeper needs. It tells nothing of what it holds.
pub trait Database: Sized + Drop {
    /// Opens the database in a file. Where the file is missing it is made, for its owner alone, and where it holds nothing, so does the
    /// database; one that is to be found is refused there, and nothing is made.
    fn open(rt: &HostRuntime, place: &str, opening: Opening) -> Result<Self, Stop>;

    /// Runs a statement with the values of its parameters. A query begins with SELECT.
    fn run(&mut self, statement: &str, values: &[Value<'_>]) -> Result<Answer, Stop>;

    /// Puts all that it holds into the one file, and lets the file go.
    fn close(self) -> Result<(), Stop>;
}

/// The rows that a query gives.
pub(crate) fn ask<D: Database>(
    base: &mut D,
    query: &str,
    values: &[Value<'_>],
) -> Result<Vec<Row>, Stop> {
    match base.run(query, values)? {
        Answer::Rows(rows) => Ok(rows),
        Answer::Changed(_) => Err(Stop::Statement),
    }
}
