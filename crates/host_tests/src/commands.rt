// Commands that change files and settings. The rows follow the table of commands, written by hand.
ghost use Rattle.std.specs.Prelude.{IfSome};
ghost use Rattle.bf_world.specs.Answers.{HasMoment};

use bf_machine::{Acted, Command, Machine};
use bf_world::joined;
use desk_base::Bytes;
use rel_lexer::Text;
use std::alloc::Global;
use std::fs;
use std::mem::drop;

/// A sort of command.
#[derive(Clone, Copy)]
enum Verb {
    Write,
    Append,
    Delete,
    Copy,
    Move,
    Make,
    Drop,
    Place,
    /// Puts a setting at the moment 5.
    Put,
    /// Puts it at the moment 6.
    PutLater,
    /// Drops a setting at the moment 7.
    Unput,
}

/// Commands with their one or two texts, and what each answers: `Done`, `Failed` or the reason that the table of commands says.
const ROWS: [(Verb, &str, &str, &str); 54] = [
    (Verb::Write, "a", "one", "Done"),
    (Verb::Write, "/", "", "BadPath"),
    (Verb::Write, "../a", "", "BadPath"),
    (Verb::Write, "no/a", "", "NoSuchFolder"),
    (Verb::Append, "a", " two", "Done"),
    (Verb::Append, "/", "", "BadPath"),
    (Verb::Append, "a/b", "", "NoSuchFolder"),
    (Verb::Append, "b", "three", "Done"),
    (Verb::Make, "sub", "", "Done"),
    (Verb::Make, "sub", "", "Done"),
    (Verb::Make, "/", "", "BadPath"),
    (Verb::Make, "a", "", "AlreadyThere"),
    (Verb::Make, "no/sub", "", "NoSuchFolder"),
    (Verb::Write, "sub", "", "AlreadyThere"),
    (Verb::Append, "sub", "", "AlreadyThere"),
    (Verb::Copy, "a", "sub/c", "Done"),
    (Verb::Copy, "a", "sub/c", "AlreadyThere"),
    (Verb::Copy, "a", "/", "BadPath"),
    (Verb::Copy, "no", "d", "NoSuchFile"),
    (Verb::Copy, "sub", "d", "NoSuchFile"),
    (Verb::Copy, "a", "no/d", "NoSuchFolder"),
    (Verb::Drop, "sub", "", "NotEmpty"),
    (Verb::Move, "sub/c", "d", "Done"),
    (Verb::Move, "/", "e", "BadPath"),
    (Verb::Move, "sub/c", "e", "NoSuchFile"),
    (Verb::Move, "d", "a", "AlreadyThere"),
    (Verb::Move, "d", "no/d", "NoSuchFolder"),
    (Verb::Delete, "/", "", "BadPath"),
    (Verb::Delete, "sub", "", "NotAFile"),
    (Verb::Drop, "sub", "", "Done"),
    (Verb::Drop, "/", "", "BadPath"),
    (Verb::Drop, "sub", "", "NoSuchFolder"),
    (Verb::Drop, "a", "", "NoSuchFolder"),
    (Verb::Delete, "b", "", "Done"),
    (Verb::Delete, "b", "", "Done"),
    (Verb::Write, "__Download", "", "Done"),
    (Verb::Place, "f", "", "AlreadyThere"),
    (Verb::Delete, "__Download", "", "Done"),
    (Verb::Place, "f", "first", "Done"),
    (Verb::Place, "f", "second", "Done"),
    (Verb::Place, "..", "", "BadPath"),
    (Verb::Place, "f/g", "", "BadPath"),
    (Verb::Make, "__Download/g", "", "Done"),
    (Verb::Place, "g", "", "AlreadyThere"),
    (Verb::Append, "settings", "# kept", "Done"),
    (Verb::Put, "name", "old", "Done"),
    (Verb::PutLater, "name", "new", "Done"),
    (Verb::Put, "name", "late", "Done"),
    (Verb::Put, "other", "value", "Done"),
    (Verb::Put, "bad name", "value", "Failed"),
    (Verb::Unput, "other", "", "Done"),
    (Verb::Write, "/proc/new", "", "Failed"),
    (Verb::Make, "/proc/new", "", "Failed"),
    (Verb::Delete, "/proc/version", "", "Failed"),
];

/// What files hold afterwards.
const CONTENTS: [(&str, &str); 4] = [
    ("a", "one two"),
    ("d", "one two"),
    ("__Download/f", "second"),
    ("settings", "# kept\n6 name new\n"),
];

/// How many rows there are.
pub(crate) const ALL: usize = ROWS.len() + CONTENTS.len();

/// The command of this sort with these texts.
fn command(alloc: Global, verb: Verb, first: &str, second: &str) -> Option<Command>
    ensures { IfSome result HasMoment }
{
    match verb {
        Verb::Copy | Verb::Move => transfer(alloc, verb, first, second),
        Verb::Put => setting(alloc, first, second, false),
        Verb::PutLater => setting(alloc, first, second, true),
        Verb::Write | Verb::Append | Verb::Place => filling(alloc, verb, first, second),
        _ => of_one(alloc, verb, first),
    }
}

fn of_one(alloc: Global, verb: Verb, text: &str) -> Option<Command>
    ensures { IfSome result HasMoment }
{
    let text = Text::from_str(alloc, text).ok()?;
    match verb {
        Verb::Delete => Some(Command::Delete(text)),
        Verb::Make => Some(Command::MakeFolder(text)),
        Verb::Drop => Some(Command::DropFolder(text)),
        _ => Some(Command::Drop {
            name: text,
            date: 7,
        }),
    }
}

fn transfer(alloc: Global, verb: Verb, from: &str, to: &str) -> Option<Command>
    ensures { IfSome result HasMoment }
{
    let from = Text::from_str(alloc, from).ok()?;
    let to = Text::from_str(alloc, to).ok()?;
    match verb {
        Verb::Copy => Some(Command::Copy(from, to)),
        _ => Some(Command::Move(from, to)),
    }
}

fn filling(alloc: Global, verb: Verb, path: &str, content: &str) -> Option<Command>
    ensures { IfSome result HasMoment }
{
    let path = Text::from_str(alloc, path).ok()?;
    let content = Bytes::from_slice(alloc, content.as_bytes()).ok()?;
    match verb {
        Verb::Write => Some(Command::Write(path, content)),
        Verb::Append => Some(Command::Append(path, content)),
        _ => Some(Command::Place(path, content)),
    }
}

fn setting(alloc: Global, name: &str, value: &str, later: bool) -> Option<Command>
    ensures { IfSome result HasMoment }
{
    let name = Text::from_str(alloc, name).ok()?;
    let value = Text::from_str(alloc, value).ok()?;
    let date = if later { 6 } else { 5 };
    Some(Command::Put { name, value, date })
}

fn word_of(acted: Acted) -> &'static str {
    match acted {
        Acted::Done => "Done",
        Acted::Started(_) => "Started",
        Acted::Refused(reason) => reason.name(),
        Acted::Failed => "Failed",
        Acted::Memory => "Memory",
    }
}

/// What a command answers.
fn act<M: Machine>(
    alloc: Global,
    machine: &mut M,
    verb: Verb,
    first: &str,
    second: &str,
) -> Option<&'static str> {
    let command = command(alloc, verb, first, second)?;
    let acted = machine.act(&command, 1000);
    drop(command);
    Some(word_of(acted))
}

/// How many commands answer as their rows say, up to the first that doesn't.
fn right_commands<M: Machine>(alloc: Global, machine: &mut M) -> Option<usize> {
    for (index, row) in ROWS.iter().enumerate() {
        let (verb, first, second, answer) = *row;
        if act(alloc, machine, verb, first, second)? != answer {
            return Some(index);
        }
    }
    Some(ROWS.len())
}

/// Whether a file of a folder holds this.
fn holds(rt: &HostRuntime, folder: &str, name: &str, content: &str) -> Option<bool> {
    let path = joined(rt.alloc(), folder, name).ok()?;
    let text = fs::read_to_string(rt, path.as_str()).ok()?;
    Some(text.as_str() == content)
}

/// How many files hold what their rows say, up to the first that doesn't.
fn right_contents(rt: &HostRuntime, folder: &str) -> Option<usize> {
    for (index, row) in CONTENTS.iter().enumerate() {
        let (name, content) = *row;
        if !holds(rt, folder, name, content)? {
            return Some(index);
        }
    }
    Some(CONTENTS.len())
}

/// How many commands, and then files, are as their rows say, on a machine that works in this folder.
pub(crate) fn right_rows<M: Machine>(
    rt: &HostRuntime,
    machine: &mut M,
    folder: &str,
) -> Option<usize> {
    let right = right_commands(rt.alloc(), machine)?;
    Some(right.saturating_add(right_contents(rt, folder)?))
}
