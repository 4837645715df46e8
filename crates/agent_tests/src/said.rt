// What an agent's turns came to, in words.
use agent_core::{Fail, Turned};
use bf_machine::{Command, PlainMachine};
use rel_lexer::Text;
use script_run::Cause;
use std::alloc::{AllocError, Global};
use std::mem::drop;

/// Appends these words.
pub(crate) fn words(words: &[&str], out: &mut Text) -> Result<(), AllocError> {
    for word in words {
        out.push(word)?;
    }
    Ok(())
}

/// Appends a number and what stands behind it.
pub(crate) fn number(
    alloc: Global,
    number: u64,
    behind: &str,
    out: &mut Text,
) -> Result<(), AllocError> {
    let digits = format!(in alloc; "{number}{behind}")?;
    out.push(digits.as_str())
}

/// Appends the action of an attempt, and whether it began in this turn.
fn attempt(alloc: Global, began: bool, id: u64, out: &mut Text) -> Result<(), AllocError> {
    out.push(if began { "began " } else { "went on " })?;
    number(alloc, id, " ", out)
}

/// Appends where an attempt failed, and why.
fn failure(alloc: Global, fail: &Fail, out: &mut Text) -> Result<(), AllocError> {
    let place = format!(in alloc; "failed {} {} ", fail.component, fail.line)?;
    out.push(place.as_str())?;
    number(alloc, u64::from(fail.cause.number()), "", out)?;
    match &fail.cause {
        Cause::Refused(why) => words(&[" ", why.name()], out),
        _ => Ok(()),
    }
}

/// Appends where an attempt waits.
fn held(alloc: Global, component: u32, line: u32, out: &mut Text) -> Result<(), AllocError> {
    out.push("held ")?;
    number(alloc, u64::from(component), " ", out)?;
    number(alloc, u64::from(line), "", out)
}

/// Appends what a turn answered.
fn answer(alloc: Global, turned: &Turned, out: &mut Text) -> Result<(), AllocError> {
    match turned {
        Turned::Idle => out.push("idle"),
        Turned::Interrupted { id } => {
            out.push("interrupted ")?;
            number(alloc, *id, "", out)
        }
        Turned::Held {
            id,
            began,
            component,
            line,
        } => {
            attempt(alloc, *began, *id, out)?;
            held(alloc, *component, *line, out)
        }
        Turned::Wants { id, began, digest } => {
            attempt(alloc, *began, *id, out)?;
            out.push("wants ")?;
            number(alloc, u64::from(digest[0]), "", out)
        }
        Turned::Ended {
            id,
            began,
            fail: Some(fail),
            ..
        } => {
            attempt(alloc, *began, *id, out)?;
            failure(alloc, fail, out)
        }
        Turned::Ended {
            id,
            began,
            fail: None,
            ..
        } => {
            attempt(alloc, *began, *id, out)?;
            out.push("fixed")
        }
        Turned::MachineFault => out.push("machine fault"),
        Turned::PocketFault => out.push("pocket fault"),
        Turned::Memory => out.push("memory"),
    }
}

/// Appends what a turn answered, as a copy of it tells.
pub(crate) fn told(alloc: Global, turned: &Turned, out: &mut Text) -> Result<(), AllocError> {
    let copy = turned.copy()?;
    let done = answer(alloc, &copy, out);
    drop(copy);
    done
}

/// Appends a command.
fn command(command: &Command, out: &mut Text) -> Result<(), AllocError> {
    match command {
        Command::Write(path, _) => words(&[", write ", path.as_str()], out),
        Command::Append(path, _) => words(&[", append ", path.as_str()], out),
        Command::Place(path, _) => words(&[", place ", path.as_str()], out),
        Command::Delete(path) => words(&[", delete ", path.as_str()], out),
        Command::Copy(from, to) => words(&[", copy ", from.as_str(), " ", to.as_str()], out),
        Command::Move(from, to) => words(&[", move ", from.as_str(), " ", to.as_str()], out),
        Command::MakeFolder(path) => words(&[", make ", path.as_str()], out),
        Command::DropFolder(path) => words(&[", drop ", path.as_str()], out),
        Command::Start { line, .. } => words(&[", start ", line.as_str()], out),
        Command::Put { name, .. } => words(&[", put ", name.as_str()], out),
        Command::Drop { name, .. } => words(&[", unset ", name.as_str()], out),
    }
}

/// Appends the commands that a machine did from this one on.
pub(crate) fn deeds(
    machine: &PlainMachine,
    acted: usize,
    out: &mut Text,
) -> Result<(), AllocError> {
    for done in machine.acted().iter().skip(acted) {
        command(done, out)?;
    }
    out.push("\n")
}
