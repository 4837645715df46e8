// What no question shows: commands, polls and failing calls. The rows follow the table of commands, written by hand.
ghost use Rattle.std.specs.Prelude.{IfSome};
ghost use Rattle.bf_world.specs.Answers.{HasMoment};

use bf_machine::{
    Acted, Answer, Command, Key, Looked, Machine, PlainMachine, Polled, ProcessNo, read_world,
};
use desk_base::Bytes;
use rel_lexer::Text;
use std::alloc::Global;
use std::mem::drop;

fn text(alloc: Global, text: &str) -> Option<Text> {
    Text::from_str(alloc, text).ok()
}

/// A folder with an empty file and one of a line, and a program of two polls, which gives a package.
const WORLD: &[u8] = b"world
name pc1
system 12.4 Debian
offset -480
moment 1173053048
folder /a
file 100 /a/empty
file 200 /a/one
| x=1
program 2 3 up
gives 1.2 agentd
end
";

/// A machine over that world. The looks, acts and polls with these numbers fail.
fn machine(alloc: Global, looks: &[u32], acts: &[u32], polls: &[u32]) -> Option<PlainMachine> {
    let looks = looks.to_vec(alloc).ok()?;
    let acts = acts.to_vec(alloc).ok()?;
    let polls = polls.to_vec(alloc).ok()?;
    let world = read_world(alloc, WORLD).ok()?;
    Some(PlainMachine::new(alloc, world, looks, acts, polls))
}

fn look<M: Machine>(machine: &mut M, key: &Key) -> Looked {
    machine.look(key)
}

/// The size and moment of a file; a size of -1 stands for a folder, -2 for nothing.
fn stat(alloc: Global, machine: &mut PlainMachine, path: &str) -> Option<(i64, i64)> {
    let key = Key::Stat(text(alloc, path)?);
    match look(machine, &key).copy().ok()? {
        Looked::Answer(Answer::File { size, modified }) => Some((size, modified)),
        Looked::Answer(Answer::Folder) => Some((-1, 0)),
        Looked::Answer(Answer::Nothing) => Some((-2, 0)),
        _ => None,
    }
}

/// A sort of command on paths.
#[derive(Clone, Copy)]
enum Verb {
    Write,
    Append,
    Delete,
    Copy,
    Move,
    Make,
    Drop,
    Place,
    Start,
}

/// The command of this sort on a path; Copy and Move have a second one. The line `y` is written, appended or placed.
fn command(alloc: Global, verb: Verb, path: &str, to: &str) -> Option<Command>
    ensures { IfSome result HasMoment }
{
    let path = text(alloc, path)?;
    match verb {
        Verb::Write => Some(Command::Write(path, Bytes::from_slice(alloc, b"y\n").ok()?)),
        Verb::Append => Some(Command::Append(path, Bytes::from_slice(alloc, b"y\n").ok()?)),
        Verb::Delete => Some(Command::Delete(path)),
        Verb::Copy => Some(Command::Copy(path, text(alloc, to)?)),
        Verb::Move => Some(Command::Move(path, text(alloc, to)?)),
        Verb::Make => Some(Command::MakeFolder(path)),
        Verb::Drop => Some(Command::DropFolder(path)),
        Verb::Place => Some(Command::Place(path, Bytes::from_slice(alloc, b"y\n").ok()?)),
        Verb::Start => Some(Command::Start {
            line: path,
            hidden: true,
        }),
    }
}

/// What that command answers at moment 7: `done`, `started`, `failed`, or the name of the reason for which it isn't done.
fn act(
    alloc: Global,
    machine: &mut PlainMachine,
    verb: Verb,
    path: &str,
    to: &str,
) -> Option<&'static str> {
    let command = command(alloc, verb, path, to)?;
    match machine.act(&command, 7) {
        Acted::Done => Some("done"),
        Acted::Started(_) => Some("started"),
        Acted::Refused(reason) => Some(reason.name()),
        Acted::Failed => Some("failed"),
        Acted::Memory => None,
    }
}

/// Refusals in the order of the checks.
const REFUSALS: [(Verb, &str, &str, &str); 29] = [
    (Verb::Write, "/", "", "BadPath"),
    (Verb::Write, "/no//b", "", "BadPath"),
    (Verb::Write, "/no/b", "", "NoSuchFolder"),
    (Verb::Write, "/a/one/b", "", "NoSuchFolder"),
    (Verb::Write, "/a", "", "AlreadyThere"),
    (Verb::Append, "/no//b", "", "BadPath"),
    (Verb::Append, "/no/b", "", "NoSuchFolder"),
    (Verb::Append, "/a", "", "AlreadyThere"),
    (Verb::Delete, "/", "", "BadPath"),
    (Verb::Delete, "/a", "", "NotAFile"),
    (Verb::Copy, "/", "//", "BadPath"),
    (Verb::Copy, "/no", "//", "BadPath"),
    (Verb::Copy, "/no", "/a/one", "NoSuchFile"),
    (Verb::Copy, "/a", "/b", "NoSuchFile"),
    (Verb::Copy, "/a/one", "/a/empty", "AlreadyThere"),
    (Verb::Copy, "/a/one", "/no/b", "NoSuchFolder"),
    (Verb::Move, "/no", "//", "BadPath"),
    (Verb::Move, "/no", "/a/one", "NoSuchFile"),
    (Verb::Move, "/a/one", "/a", "AlreadyThere"),
    (Verb::Make, "/", "", "BadPath"),
    (Verb::Make, "/a/one", "", "AlreadyThere"),
    (Verb::Make, "/no/b", "", "NoSuchFolder"),
    (Verb::Drop, "/", "", "BadPath"),
    (Verb::Drop, "/a/one", "", "NoSuchFolder"),
    (Verb::Drop, "/a", "", "NotEmpty"),
    (Verb::Place, "a/b", "", "BadPath"),
    (Verb::Place, "..", "", "BadPath"),
    (Verb::Start, "down", "", "NotStarted"),
    (Verb::Start, "", "", "NotStarted"),
];

fn are_refused(alloc: Global, machine: &mut PlainMachine) -> Option<bool> {
    for (verb, path, to, reason) in REFUSALS {
        if act(alloc, machine, verb, path, to)? != reason {
            return Some(false);
        }
    }
    Some(machine.acted().len() == 29)
}

/// Commands that are done, each with what stands at a path after it.
const CHANGES: [(Verb, &str, &str, &str, (i64, i64)); 10] = [
    (Verb::Append, "/a/one", "", "/a/one", (6, 7)),
    (Verb::Copy, "/a/one", "b", "b", (6, 7)),
    (Verb::Move, "b", "c", "b", (-2, 0)),
    (Verb::Write, "c", "", "c", (2, 7)),
    (Verb::Delete, "c", "", "c", (-2, 0)),
    (Verb::Delete, "c", "", "c", (-2, 0)),
    (Verb::Make, "/a", "", "/a", (-1, 0)),
    (Verb::Place, "p", "", "__Download", (-1, 0)),
    (Verb::Place, "p", "", "__Download/p", (2, 7)),
    (Verb::Make, "__Download/q", "", "__Download/q", (-1, 0)),
];

fn are_done(alloc: Global, machine: &mut PlainMachine) -> Option<bool> {
    for (verb, path, to, seen, expected) in CHANGES {
        if act(alloc, machine, verb, path, to)? != "done" {
            return Some(false);
        }
        if stat(alloc, machine, seen)? != expected {
            return Some(false);
        }
    }
    Some(act(alloc, machine, Verb::Place, "q", "")? == "AlreadyThere")
}

/// Whether the commands of both tables answer as they say there.
fn answers(alloc: Global) -> Option<bool> {
    let mut machine = machine(alloc, &[], &[], &[])?;
    let refused = are_refused(alloc, &mut machine);
    let done = are_done(alloc, &mut machine);
    drop(machine);
    Some(refused? && done?)
}

#[test]
fn commands_are_refused_or_done(rt: HostRuntime) {
    assert_eq!(rt; answers(rt.alloc()), Some(true));
}

/// What a poll of the first program answers: `running`, `failed`, `exited 3`, or `exited` otherwise.
fn poll(machine: &mut PlainMachine) -> Option<&'static str> {
    if machine.world().started() == 0 {
        return None;
    }
    match machine.poll(ProcessNo(0)) {
        Polled::Running => Some("running"),
        Polled::Exited(3) => Some("exited 3"),
        Polled::Exited(_) => Some("exited"),
        Polled::Failed => Some("failed"),
    }
}

/// Whether the program of two polls runs twice and has exited then, where the first act and the second poll fail.
fn runs_twice(alloc: Global, machine: &mut PlainMachine) -> Option<bool> {
    for expected in ["failed", "started"] {
        if act(alloc, machine, Verb::Start, "up", "")? != expected {
            return Some(false);
        }
    }
    for expected in ["running", "failed", "running", "exited 3"] {
        if poll(machine)? != expected {
            return Some(false);
        }
    }
    Some(true)
}

/// How many packages there are, where the look doesn't fail.
fn packages(machine: &mut PlainMachine) -> Option<usize> {
    match look(machine, &Key::Packages) {
        Looked::Answer(Answer::Packages(packages)) => Some(packages.as_slice().len()),
        _ => None,
    }
}

/// Whether the listed calls of a machine fail, the program runs, and its package is there then.
fn fails_there(alloc: Global, machine: &mut PlainMachine) -> Option<bool> {
    let work = text(alloc, "/w")?;
    machine.open(&work).ok()?;
    if packages(machine).is_some() {
        return Some(false);
    }
    let runs = runs_twice(alloc, machine)?;
    let found = packages(machine)?;
    Some(runs && found == 1 && machine.looked().len() == 1 && machine.acted().len() == 1)
}

/// The same of a machine whose first look and act and second poll are listed.
fn fails_as_listed(alloc: Global) -> Option<bool> {
    let mut machine = machine(alloc, &[1], &[1], &[2])?;
    let fails = fails_there(alloc, &mut machine);
    drop(machine);
    fails
}

#[test]
fn listed_calls_fail(rt: HostRuntime) {
    assert_eq!(rt; fails_as_listed(rt.alloc()), Some(true));
}
