// The machine of which no call fails, and what its commands are answered in a copy of its world.
ghost use Rattle.std.specs.Prelude.{IfSome};
ghost use Rattle.bf_world.specs.Answers.{HasMoment};

use bf_machine::{
    Acted, Command, Key, Looked, Machine, Polled, ProcessNo, SureMachine, World, read_world,
};
use desk_base::Bytes;
use rel_lexer::Text;
use std::alloc::Global;
use std::mem::drop;

/// A folder, and a program of two polls, which gives a package.
const WORLD: &[u8] = b"world
name pc1
system 12.4 Debian
offset -480
moment 1173053048
folder /a
program 2 3 up
gives 1.2 agentd
end
";

/// What a command is answered: `done`, `started`, `failed`, or the name of the reason for which it isn't done.
fn named(acted: Acted) -> &'static str {
    match acted {
        Acted::Done => "done",
        Acted::Started(_) => "started",
        Acted::Refused(reason) => reason.name(),
        Acted::Failed => "failed",
        Acted::Memory => "memory",
    }
}

fn start(alloc: Global) -> Option<Command>
    ensures { IfSome result HasMoment }
{
    let line = Text::from_str(alloc, "up").ok()?;
    Some(Command::Start { line, hidden: true })
}

fn write(alloc: Global, path: &str) -> Option<Command>
    ensures { IfSome result HasMoment }
{
    let path = Text::from_str(alloc, path).ok()?;
    Some(Command::Write(path, Bytes::from_slice(alloc, b"y\n").ok()?))
}

/// Whether the machine and the copy of its world both answer this to a command at moment 7.
fn both(machine: &mut SureMachine, copy: &mut World, command: &Command, expected: &str) -> bool
    requires { HasMoment command.now }
{
    let first = named(machine.act(command, 7));
    let second = named(copy.act(command, 7));
    first == expected && second == expected
}

/// Whether the first program that was started runs.
fn runs(machine: &mut SureMachine) -> bool {
    if machine.world().started() == 0 {
        return false;
    }
    match machine.poll(ProcessNo(0)) {
        Polled::Running => true,
        _ => false,
    }
}

/// Whether the packages are told.
fn looks(machine: &mut SureMachine) -> bool {
    match machine.look(&Key::Packages) {
        Looked::Answer(_) => true,
        _ => false,
    }
}

/// Whether three commands are answered alike on a machine, of which a program was polled in between, and in a copy of its world. It keeps
/// them, and none once it begins anew.
fn answers_alike(alloc: Global, machine: &mut SureMachine, copy: &mut World) -> Option<bool> {
    let up = start(alloc)?;
    let nowhere = write(alloc, "/no/b")?;
    let first = both(machine, copy, &up, "started");
    let between = runs(machine) && looks(machine);
    let second = both(machine, copy, &nowhere, "NoSuchFolder");
    let third = both(machine, copy, &up, "started");
    let kept = machine.acted().len() == 3;
    machine.begin_anew();
    let anew = machine.acted().is_empty() && machine.world().started() == 2;
    Some(first && between && second && third && kept && anew)
}

fn answers_alike_there(alloc: Global) -> Option<bool> {
    let world = read_world(alloc, WORLD).ok()?;
    let mut copy = world.copy().ok()?;
    let mut machine = SureMachine::new(alloc, world);
    let alike = answers_alike(alloc, &mut machine, &mut copy);
    drop(machine);
    drop(copy);
    alike
}

#[test]
fn commands_are_answered_alike_in_a_copy(rt: HostRuntime) {
    assert_eq!(rt; answers_alike_there(rt.alloc()), Some(true));
}
