// Programs that are started and polled.
ghost use Rattle.std.specs.Prelude.{◌<◌, IfSome};
ghost use Rattle.bf_machine.specs.Acts.{CountsStarted};

use bf_machine::{Acted, Command, Machine, Polled, ProcessNo, Reason};
use rel_lexer::Text;
use std::alloc::Global;
use std::mem::drop;
use std::thread;
use std::time::Duration;

/// Command lines, and a shell's own exit codes: 128 and the number of the signal, 127 for a command that isn't found. The programs work
/// in the work folder, have no input, and their output goes nowhere.
const ROWS: [(&str, i64); 5] = [
    ("exit 3", 3),
    ("kill -9 $$", 137),
    ("no-such-program-is-here", 127),
    ("-x", 127),
    (
        "echo told; read line || test \"$PWD\" = /tmp/host_tests-*-programs",
        0,
    ),
];

/// How many rows there are, and one more for a folder that isn't there.
pub(crate) const ALL: usize = ROWS.len() + 1;

/// What starting a command line answers.
fn start<M: Machine>(alloc: Global, machine: &mut M, line: &str) -> Option<Acted>
    ensures { IfSome result (CountsStarted (M.told machine.old).started (M.told machine.new).started) }
{
    let line = Text::from_str(alloc, line).ok()?;
    let hidden = false;
    let command = Command::Start { line, hidden };
    let acted = machine.act(&command, 0);
    drop(command);
    Some(acted)
}

/// The number of the program that is started for a command line.
fn started<M: Machine>(alloc: Global, machine: &mut M, line: &str) -> Option<ProcessNo>
    ensures { IfSome result (λ process. process.0 < (M.told machine.new).started) }
{
    match start(alloc, machine, line)? {
        Acted::Started(process) => Some(process),
        _ => None,
    }
}

/// The exit code of a program when it has ended. None where it can't be polled, or isn't done after 10 seconds.
fn exit_of<M: Machine>(rt: &HostRuntime, machine: &mut M, process: ProcessNo) -> Option<i64>
    requires { process.0 < (M.told machine.old).started }
{
    'polls: for _ in 0..2000 {
        match machine.poll(process) {
            Polled::Running => thread::sleep(rt, Duration::from_millis(5)),
            Polled::Exited(exit) => return Some(exit),
            Polled::Failed => return None,
        }
    }
    None
}

/// Does a command line, and tells its exit code.
pub(crate) fn run<M: Machine>(rt: &HostRuntime, machine: &mut M, line: &str) -> Option<i64> {
    let process = started(rt.alloc(), machine, line)?;
    exit_of(rt, machine, process)
}

/// How many programs end as their rows say, up to the first that doesn't.
fn right_exits<M: Machine>(rt: &HostRuntime, machine: &mut M) -> Option<usize> {
    for (index, row) in ROWS.iter().enumerate() {
        let (line, exit) = *row;
        if run(rt, machine, line)? != exit {
            return Some(index);
        }
    }
    Some(ROWS.len())
}

/// Whether no program can be started in a work folder that isn't there.
fn starts_nowhere<M: Machine>(alloc: Global, machine: &mut M) -> Option<bool> {
    let work = Text::from_str(alloc, "/no/such/folder").ok()?;
    machine.open(&work).ok()?;
    let acted = start(alloc, machine, "exit 0")?;
    Some(matches!(acted, Acted::Refused(Reason::NotStarted)))
}

/// How many programs end as their rows say, and one more where none starts in a folder that isn't there.
pub(crate) fn right_rows<M: Machine>(rt: &HostRuntime, machine: &mut M) -> Option<usize> {
    let right = right_exits(rt, machine)?;
    let refused = starts_nowhere(rt.alloc(), machine)?;
    Some(right.saturating_add(usize::from(refused)))
}
