//! A shell over the keeper in a file, for rows and measurements: a command on each line of standard input, and what was done on standard
//! output. By the word `find` files are found, and not made where they are missing.
#![tactic(auto)]

mod batch;
mod command;
mod rows;
mod shown;

use batch::Batch;
use desk_sql::{Opening, SqlKeeper};
use sqlite_file::SqliteFile;
use std::rt::Env;
use std::{env, io};

/// How the words of the command line have files opened.
fn opening(rt: &(impl Env + AllocGlobal)) -> io::Result<Opening> {
    for word in env::args(rt)?.skip(1) {
        if word.as_str() == "find" {
            return Ok(Opening::Find);
        }
    }
    Ok(Opening::Make)
}

fn main(rt: HostRuntime) -> io::Result<()> {
    let mut keeper: SqlKeeper<'_, SqliteFile> = SqlKeeper::new(&rt, opening(&rt)?);
    let mut batch = Batch::new(rt.alloc());
    for line in rt.lines(rt.alloc()) {
        let line = line?;
        command::obey(&rt, &mut keeper, &mut batch, line.as_str())?;
    }
    Ok(())
}
