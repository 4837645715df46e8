use crate::database::{Database, ask};
use crate::opening::Opening;
use crate::stop::Stop;
use crate::transaction::{begin, end};

/// What is made in a file that holds nothing: schema 2.
const MAKE: &[&str] = &[
    "CREATE TABLE desk_schema (version INTEGER NOT NULL) STRICT",
    "INSERT INTO desk_schema (version) VALUES (2)",
    "CREATE TABLE sites (name TEXT NOT NULL PRIMARY KEY, version INTEGER NOT NULL, text BLOB NOT NULL) STRICT",
    "CREATE TABLE actions (id INTEGER NOT NULL PRIMARY KEY, text BLOB NOT NULL, digest TEXT NOT NULL) STRICT",
    "CREATE TABLE files (digest TEXT NOT NULL PRIMARY KEY, bytes BLOB NOT NULL) STRICT",
    "CREATE TABLE computers (name TEXT NOT NULL PRIMARY KEY) STRICT",
    "CREATE TABLE reports (computer TEXT NOT NULL, seq INTEGER NOT NULL, digest TEXT NOT NULL, PRIMARY KEY (computer, seq)) STRICT",
    "CREATE TABLE results (computer TEXT NOT NULL, action INTEGER NOT NULL, number INTEGER NOT NULL, outcome TEXT NOT NULL, begun INTEGER NOT NULL, ended INTEGER, exit INTEGER, component INTEGER, line INTEGER, seq INTEGER NOT NULL, PRIMARY KEY (computer, action)) STRICT",
    "CREATE INDEX site_versions ON sites (name, version)",
];

/// What makes schema 2 of schema 1, whose results have no exit, component and line, and whose sites have no index. There is no ALTER
/// TABLE, so the results are copied twice.
const MIGRATE: &[&str] = &[
    "CREATE TABLE results_1 (computer TEXT NOT NULL, action INTEGER NOT NULL, number INTEGER NOT NULL, outcome TEXT NOT NULL, begun INTEGER NOT NULL, ended INTEGER, seq INTEGER NOT NULL, PRIMARY KEY (computer, action)) STRICT",
    "INSERT INTO results_1 (computer, action, number, outcome, begun, ended, seq) SELECT computer, action, number, outcome, begun, ended, seq FROM results",
    "DROP TABLE results",
    "CREATE TABLE results (computer TEXT NOT NULL, action INTEGER NOT NULL, number INTEGER NOT NULL, outcome TEXT NOT NULL, begun INTEGER NOT NULL, ended INTEGER, exit INTEGER, component INTEGER, line INTEGER, seq INTEGER NOT NULL, PRIMARY KEY (computer, action)) STRICT",
    "INSERT INTO results (computer, action, number, outcome, begun, ended, exit, component, line, seq) SELECT computer, action, number, outcome, begun, ended, NULL, NULL, NULL, seq FROM results_1",
    "DROP TABLE results_1",
    "CREATE INDEX site_versions ON sites (name, version)",
    "UPDATE desk_schema SET version = 2",
];

/// What a file holds.
#[derive(Clone, Copy)]
enum Schema {
    Nothing,
    Number(i64),
    Foreign,
}

/// Makes the tables in a file that holds nothing, unless they are to be found, and migrates those of schema 1, each in one transaction.
/// Those of schema 2 are taken as they are, and all else is refused.
pub(crate) fn make_tables<D: Database>(base: &mut D, opening: Opening) -> Result<(), Stop> {
    match (schema_of(base)?, opening) {
        (Schema::Nothing, Opening::Make) => run_all(base, MAKE),
        (Schema::Number(1), _) => run_all(base, MIGRATE),
        (Schema::Number(2), _) => Ok(()),
        _ => Err(Stop::OtherForm),
    }
}

fn schema_of<D: Database>(base: &mut D) -> Result<Schema, Stop> {
    if first_number(base, "SELECT count(*) FROM sqlite_schema")? == 0 {
        return Ok(Schema::Nothing);
    }
    let marks = "SELECT count(*) FROM sqlite_schema WHERE type = 'table' AND name = 'desk_schema'";
    if first_number(base, marks)? != 1 {
        return Ok(Schema::Foreign);
    }
    if first_number(base, "SELECT count(*) FROM desk_schema")? != 1 {
        return Ok(Schema::Foreign);
    }
    Ok(Schema::Number(first_number(base, "SELECT version FROM desk_schema")?))
}

/// The number that a query gives first.
pub(crate) fn first_number<D: Database>(base: &mut D, query: &str) -> Result<i64, Stop> {
    let rows = ask(base, query, &[])?;
    match rows.first() {
        Some(row) => row.signed(0),
        None => Err(Stop::OtherForm),
    }
}

/// Runs statements in one transaction.
fn run_all<D: Database>(base: &mut D, statements: &[&str]) -> Result<(), Stop> {
    begin(base)?;
    let run = run_each(base, statements);
    end(base, run)
}

fn run_each<D: Database>(base: &mut D, statements: &[&str]) -> Result<(), Stop> {
    for statement in statements {
        base.run(statement, &[])?;
    }
    Ok(())
}
