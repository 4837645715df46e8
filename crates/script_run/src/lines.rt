// What one line is to do, once its expressions or its test are asked.
ghost use Rattle.std.specs.Prelude.{◌≡◌};
ghost use Rattle.script_run.specs.Fills.{PreparesLine, start_line, await_line};

use crate::Cause;
use crate::asking::judge;
use crate::broken::Broken;
use crate::files::{appends, copies, creates, deletes, makes, moves, removes};
use crate::filling::{filled, midway_behind, two};
use crate::kept::Kept;
use crate::times::time_of;
use bf_machine::{Command, Machine};
use rel_eval::Truth;
use rel_lexer::Text;
use script_text::{Line, Template};
use std::alloc::Global;

/// What is left to do of a line.
#[derive(Drop)]
pub enum Prepared {
    /// Nothing.
    Passes,
    /// Nothing now: its test is true.
    Held,
    /// A parameter is set, midway where an expression of the line was asked.
    Sets {
        midway: bool,
        name: Text,
        value: Text,
    },
    /// Nothing: its date is no time, which is known midway where an expression of the line was asked.
    Undated {
        midway: bool,
    },
    /// A command is done.
    Does {
        command: Command,
    },
    /// A program is started and waited for.
    Awaits {
        command: Command,
    },
}

/// Asks the expressions of a line from the left, or its test.
pub(crate) fn prepare_line<M: Machine>(
    alloc: Global,
    machine: &mut M,
    kept: &Kept,
    what: &Line,
) -> Result<Prepared, Broken>
    ensures { PreparesLine kept.now.scene what.now (M.told machine.old) result (M.told machine.new) }
{
    match what {
        Line::Parameter(name, value) => sets(alloc, machine, kept, name, value),
        Line::ContinueIf(test) => continues(alloc, machine, kept, test),
        Line::PauseWhile(test) => pauses(alloc, machine, kept, test),
        Line::Create(lines) => creates(alloc, machine, kept, lines),
        Line::Append(text) => appends(alloc, machine, kept, text),
        Line::Delete(path) => deletes(alloc, machine, kept, path),
        Line::Copy(from, to) => copies(alloc, machine, kept, from, to),
        Line::Move(from, to) => moves(alloc, machine, kept, from, to),
        Line::FolderCreate(path) => makes(alloc, machine, kept, path),
        Line::FolderDelete(path) => removes(alloc, machine, kept, path),
        Line::Run(line) => starts(alloc, machine, kept, line, false),
        Line::Wait(line) => awaits(alloc, machine, kept, line, false),
        Line::RunHidden(line) => starts(alloc, machine, kept, line, true),
        Line::WaitHidden(line) => awaits(alloc, machine, kept, line, true),
        Line::Setting(name, value, date) => puts(alloc, machine, kept, name, value, date),
        Line::SettingDelete(name, date) => drops(alloc, machine, kept, name, date),
    }
}

/// A parameter's line.
fn sets<M: Machine>(
    alloc: Global,
    machine: &mut M,
    kept: &Kept,
    name: &Text,
    value: &Template,
) -> Result<Prepared, Broken>
    ensures { PreparesLine kept.now.scene (Line.Parameter name.now value.now) (M.told machine.old) result (M.told machine.new) }
{
    let midway = midway_behind(false, value);
    let value = filled(alloc, machine, kept, value)?;
    let name = name.copy()?;
    Ok(Prepared::Sets {
        midway,
        name,
        value,
    })
}

/// The script goes on where the test is true.
fn continues<M: Machine>(
    alloc: Global,
    machine: &mut M,
    kept: &Kept,
    test: &Text,
) -> Result<Prepared, Broken>
    ensures { PreparesLine kept.now.scene (Line.ContinueIf test.now) (M.told machine.old) result (M.told machine.new) }
{
    match judge(alloc, machine, kept, test) {
        Truth::True => Ok(Prepared::Passes),
        Truth::False => Err(Broken::Failed(Cause::NotContinued)),
        Truth::Error(kind, place) => Err(Broken::Failed(Cause::Relevance(kind, place))),
        Truth::Failed(_) => Err(Broken::Failed(Cause::MachineFault)),
        Truth::Memory => Err(Broken::Memory),
    }
}

/// The line is held while the test is true.
fn pauses<M: Machine>(
    alloc: Global,
    machine: &mut M,
    kept: &Kept,
    test: &Text,
) -> Result<Prepared, Broken>
    ensures { PreparesLine kept.now.scene (Line.PauseWhile test.now) (M.told machine.old) result (M.told machine.new) }
{
    match judge(alloc, machine, kept, test) {
        Truth::True => Ok(Prepared::Held),
        Truth::False => Ok(Prepared::Passes),
        Truth::Error(kind, place) => Err(Broken::Failed(Cause::Relevance(kind, place))),
        Truth::Failed(_) => Err(Broken::Failed(Cause::MachineFault)),
        Truth::Memory => Err(Broken::Memory),
    }
}

/// A program is started.
fn starts<M: Machine>(
    alloc: Global,
    machine: &mut M,
    kept: &Kept,
    command: &Template,
    hidden: bool,
) -> Result<Prepared, Broken>
    ensures { PreparesLine kept.now.scene (start_line hidden command.now) (M.told machine.old) result (M.told machine.new) }
{
    let line = filled(alloc, machine, kept, command)?;
    Ok(does(Command::Start { line, hidden }))
}

/// A program is started and waited for.
fn awaits<M: Machine>(
    alloc: Global,
    machine: &mut M,
    kept: &Kept,
    command: &Template,
    hidden: bool,
) -> Result<Prepared, Broken>
    ensures { PreparesLine kept.now.scene (await_line hidden command.now) (M.told machine.old) result (M.told machine.new) }
{
    let line = filled(alloc, machine, kept, command)?;
    Ok(Prepared::Awaits {
        command: Command::Start { line, hidden },
    })
}

/// A setting is put.
fn puts<M: Machine>(
    alloc: Global,
    machine: &mut M,
    kept: &Kept,
    name: &Template,
    value: &Template,
    date: &Template,
) -> Result<Prepared, Broken>
    ensures { PreparesLine kept.now.scene (Line.Setting name.now value.now date.now)
        (M.told machine.old) result (M.told machine.new) }
{
    let named = midway_behind(false, name);
    let valued = midway_behind(named, value);
    let midway = midway_behind(valued, date);
    let both = two(alloc, machine, kept, name, value)?;
    let date = filled(alloc, machine, kept, date)?;
    let moment = time_of(alloc, date)?;
    match moment {
        Some(date) => Ok(does(Command::Put {
            name: both.first,
            value: both.second,
            date,
        })),
        None => Ok(Prepared::Undated { midway }),
    }
}

/// A setting is dropped.
fn drops<M: Machine>(
    alloc: Global,
    machine: &mut M,
    kept: &Kept,
    name: &Template,
    date: &Template,
) -> Result<Prepared, Broken>
    ensures { PreparesLine kept.now.scene (Line.SettingDelete name.now date.now)
        (M.told machine.old) result (M.told machine.new) }
{
    let named = midway_behind(false, name);
    let midway = midway_behind(named, date);
    let name = filled(alloc, machine, kept, name)?;
    let date = filled(alloc, machine, kept, date)?;
    let moment = time_of(alloc, date)?;
    match moment {
        Some(date) => Ok(does(Command::Drop { name, date })),
        None => Ok(Prepared::Undated { midway }),
    }
}

pub(crate) fn does(command: Command) -> Prepared
    ensures { result ≡ Prepared.Does command }
{
    Prepared::Does { command }
}
