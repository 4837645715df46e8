// What a run did, as a text.
use bf_machine::{Command, Key, PlainMachine, Reason};
use rel_lexer::Text;
use script_run::{Cause, Ran};
use std::alloc::{AllocError, Global};

/// Appends a number and a blank.
fn number(alloc: Global, number: i64, out: &mut Text) -> Result<(), AllocError> {
    let digits = format!(in alloc; "{number} ")?;
    out.push(digits.as_str())
}

/// Appends a digest and a blank.
fn hexadecimal(alloc: Global, digest: &[u8; 32], out: &mut Text) -> Result<(), AllocError> {
    let digits = hex::encode(alloc, digest)?;
    words(&[digits.as_str()], out)
}

fn words(words: &[&str], out: &mut Text) -> Result<(), AllocError> {
    for word in words {
        out.push(word)?;
        out.push(" ")?;
    }
    Ok(())
}

fn reason(reason: Reason, out: &mut Text) -> Result<(), AllocError> {
    words(&[reason.name()], out)
}

/// Appends the number of a cause and what it says.
fn cause(alloc: Global, cause: &Cause, out: &mut Text) -> Result<(), AllocError> {
    number(alloc, i64::from(cause.number()), out)?;
    match cause {
        Cause::Relevance(kind, place) => {
            let said = format!(in alloc; "{} {}..{} ", kind.number(), place.from, place.to)?;
            out.push(said.as_str())
        }
        Cause::Refused(why) => reason(*why, out),
        Cause::WrongSize { stated, found } => {
            let said = format!(in alloc; "{stated} {found} ")?;
            out.push(said.as_str())
        }
        Cause::WrongDigest { stated, found } => words(&[stated.as_str(), found.as_str()], out),
        Cause::NotServed(digest) => hexadecimal(alloc, digest, out),
        _ => Ok(()),
    }
}

/// Appends an answer.
pub(crate) fn answer(alloc: Global, ran: &Ran, out: &mut Text) -> Result<(), AllocError> {
    match ran {
        Ran::Held(line) => {
            words(&["held"], out)?;
            number(alloc, i64::from(*line), out)
        }
        Ran::Wants(line, digest) => {
            words(&["wants"], out)?;
            number(alloc, i64::from(*line), out)?;
            hexadecimal(alloc, digest, out)
        }
        Ran::Done => words(&["done"], out),
        Ran::Failed(line, why) => {
            words(&["failed"], out)?;
            number(alloc, i64::from(*line), out)?;
            cause(alloc, why, out)
        }
        Ran::Memory => words(&["memory"], out),
    }
}

/// Appends a command.
fn command(alloc: Global, command: &Command, out: &mut Text) -> Result<(), AllocError> {
    match command {
        Command::Write(path, content)
        | Command::Append(path, content)
        | Command::Place(path, content) => {
            words(&[path.as_str(), "="], out)?;
            for byte in content.as_slice() {
                number(alloc, i64::from(*byte), out)?;
            }
            Ok(())
        }
        Command::Delete(path) => words(&["delete", path.as_str()], out),
        Command::Copy(from, to) => words(&["copy", from.as_str(), to.as_str()], out),
        Command::Move(from, to) => words(&["move", from.as_str(), to.as_str()], out),
        Command::MakeFolder(path) => words(&["make", path.as_str()], out),
        Command::DropFolder(path) => words(&["drop", path.as_str()], out),
        Command::Start { line, hidden } => {
            words(
                &[if *hidden { "hidden" } else { "start" }, line.as_str()],
                out,
            )
        }
        Command::Put { name, value, date } => {
            words(&["put", name.as_str(), value.as_str()], out)?;
            number(alloc, *date, out)
        }
        Command::Drop { name, date } => {
            words(&["unset", name.as_str()], out)?;
            number(alloc, *date, out)
        }
    }
}

/// Appends the commands that a machine did from this one on, and how many looks it made from this one on.
pub(crate) fn deeds(
    alloc: Global,
    machine: &PlainMachine,
    acted: usize,
    looked: usize,
    out: &mut Text,
) -> Result<(), AllocError> {
    for done in machine.acted().iter().skip(acted) {
        command(alloc, done, out)?;
        out.push("; ")?;
    }
    for key in machine.looked().iter().skip(looked) {
        match key {
            Key::Stat(path) => words(&["stat", path.as_str()], out)?,
            Key::ComputerName => words(&["name"], out)?,
            _ => words(&["look"], out)?,
        }
    }
    out.push("| ")
}
