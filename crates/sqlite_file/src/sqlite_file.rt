use crate::calls::run;
use crate::place::prepare;
use crate::stop::stop_of;
use desk_sql::{Answer, Database, Opening, Stop, Value};
use sqlite::{Connection, File, FileStore};
use std::alloc::Global;

/// A database in a file of SQLite.
#[derive(Drop)]
pub struct SqliteFile {
    alloc: Global,
    connection: Connection<FileStore<File>>,
}

impl Database for SqliteFile {
    fn open(rt: &HostRuntime, place: &str, opening: Opening) -> Result<SqliteFile, Stop> {
        prepare(rt, place, opening)?;
        match Connection::open(rt, place) {
            Ok(connection) => Ok(SqliteFile {
                alloc: rt.alloc(),
                connection,
            }),
            Err(error) => Err(stop_of(error)),
        }
    }

    fn run(&mut self, statement: &str, values: &[Value<'_>]) -> Result<Answer, Stop> {
        run(self.alloc, &mut self.connection, statement, values)
    }

    fn close(self) -> Result<(), Stop> {
        match self.connection.close() {
            Ok(()) => Ok(()),
            Err(error) => Err(stop_of(error)),
        }
    }
}
