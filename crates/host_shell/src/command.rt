ghost use Rattle.std.specs.Prelude.{IfSome};
ghost use Rattle.bf_world.specs.Answers.{HasMoment};

use bf_machine::{Acted, Command, Machine};
use desk_base::Bytes;
use line_forms::read_moment;
use rel_lexer::Text;
use std::alloc::Global;
use std::mem::drop;

/// Does the command with this word, and tells what it answers. None where there is no such command, or no memory.
pub(crate) fn act<M: Machine>(
    alloc: Global,
    machine: &mut M,
    word: &str,
    rest: &str,
) -> Option<&'static str> {
    if word == "work" {
        return work(alloc, machine, rest);
    }
    let command = command(alloc, word, rest)?;
    let acted = machine.act(&command, 1000);
    drop(command);
    Some(word_of(acted))
}

/// Names the work folder.
fn work<M: Machine>(alloc: Global, machine: &mut M, folder: &str) -> Option<&'static str> {
    let folder = Text::from_str(alloc, folder).ok()?;
    machine.open(&folder).ok()?;
    drop(folder);
    Some("Done")
}

fn word_of(acted: Acted) -> &'static str {
    match acted {
        Acted::Done => "Done",
        Acted::Started(_) => "Started",
        Acted::Refused(reason) => reason.name(),
        Acted::Failed => "Failed",
        Acted::Memory => "Memory",
    }
}

/// The command of this word and the rest of its line, which begins with what it is about: a path, a name, or a moment and a name.
fn command(alloc: Global, word: &str, rest: &str) -> Option<Command>
    ensures { IfSome result HasMoment }
{
    let (first, second) = rest.split_once(' ').unwrap_or((rest, ""));
    match word {
        "write" | "append" | "place" => filling(alloc, word, first, second),
        "copy" | "move" => transfer(alloc, word, first, second),
        "put" | "unput" => setting(alloc, word, first, second),
        _ => of_path(alloc, word, rest),
    }
}

fn filling(alloc: Global, word: &str, path: &str, content: &str) -> Option<Command>
    ensures { IfSome result HasMoment }
{
    let path = Text::from_str(alloc, path).ok()?;
    let content = Bytes::from_slice(alloc, content.as_bytes()).ok()?;
    match word {
        "write" => Some(Command::Write(path, content)),
        "append" => Some(Command::Append(path, content)),
        _ => Some(Command::Place(path, content)),
    }
}

fn transfer(alloc: Global, word: &str, from: &str, to: &str) -> Option<Command>
    ensures { IfSome result HasMoment }
{
    let from = Text::from_str(alloc, from).ok()?;
    let to = Text::from_str(alloc, to).ok()?;
    match word {
        "copy" => Some(Command::Copy(from, to)),
        _ => Some(Command::Move(from, to)),
    }
}

fn of_path(alloc: Global, word: &str, path: &str) -> Option<Command>
    ensures { IfSome result HasMoment }
{
    let path = Text::from_str(alloc, path).ok()?;
    match word {
        "delete" => Some(Command::Delete(path)),
        "make" => Some(Command::MakeFolder(path)),
        "drop" => Some(Command::DropFolder(path)),
        _ => None,
    }
}

/// The command on a setting: of `DATE NAME VALUE`, or of `DATE NAME`.
fn setting(alloc: Global, word: &str, date: &str, rest: &str) -> Option<Command>
    ensures { IfSome result HasMoment }
{
    let date = read_moment(date.as_bytes())?;
    let (name, value) = rest.split_once(' ').unwrap_or((rest, ""));
    let name = Text::from_str(alloc, name).ok()?;
    let value = Text::from_str(alloc, value).ok()?;
    match word {
        "put" => Some(Command::Put { name, value, date }),
        _ => Some(Command::Drop { name, date }),
    }
}
