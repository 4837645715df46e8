// Playing a script over a machine. Each function owns one dear thing at most, which it drops once.
ghost use Rattle.std.specs.Prelude.{◌≡◌, ℕ, length, IfSome};
ghost use Rattle.desk_base.specs.Moments.{IsMoment};
ghost use Rattle.line_forms.specs.Numbers.{IsOffset};
ghost use Rattle.script_run.specs.RunPlaces.{WaitsBelow};

use crate::said::{answer, deeds};
use bf_machine::{Command, Machine, PlainMachine, read_world};
use desk_base::Bytes;
use rel_inspect::Pairs;
use rel_lexer::Text;
use script_run::{Ran, Run};
use script_text::{Script, read_script};
use sha2::{Digest, Sha256};
use std::alloc::Global;
use std::mem::drop;

/// Folders with files, and programs that run for some polls or for none.
const WORLD: &[u8] = b"world
name pc1
system 12.4 Debian
offset 60
moment 1000
folder /a
file 100 /a/empty
file 200 /a/one
| x=1
folder /etc
folder /etc/agentd
file 500 /etc/agentd/conf
| mode=old
package 1.1 agentd
program 1 0 upgrade agentd
gives 1.2 agentd
program 0 0 quick
program 2 3 slow
end
";

/// The script of these lines, which LFs separate.
fn script_of(alloc: Global, text: &str) -> Option<Script> {
    let mut lines = Vec::new(alloc);
    for line in text.split('\n') {
        lines.push(Text::from_str(alloc, line).ok()?).ok()?;
    }
    script_of_lines(alloc, lines.as_slice())
}

fn script_of_lines(alloc: Global, lines: &[Text]) -> Option<Script> {
    if lines.len() > 10_000 {
        return None;
    }
    read_script(alloc, lines).ok()
}

/// The parameter with which an attempt begins.
fn issued(alloc: Global) -> Option<Pairs> {
    let name = Text::from_str(alloc, "action issue date").ok()?;
    let value = Text::from_str(alloc, "Thu, 01 Jan 1970 00:16:40 +0000").ok()?;
    let mut parameters = Pairs::new(alloc);
    parameters.push(name, value).ok()?;
    Some(parameters)
}

/// A run that stands before the first line.
fn opened(alloc: Global, script: &Script) -> Option<Run>
    ensures { IfSome result (λ run. (started : ℕ) → WaitsBelow started run.place) }
{
    let script = script.copy().ok()?;
    let parameters = issued(alloc)?;
    match Run::open(alloc, script, parameters) {
        Ok(run) => Some(run),
        Err(_) => None,
    }
}

/// The machine over that world. The looks, acts and polls with these numbers fail.
pub(crate) fn machine(
    alloc: Global,
    looks: &[u32],
    acts: &[u32],
    polls: &[u32],
) -> Option<PlainMachine> {
    let looks = looks.to_vec(alloc).ok()?;
    let acts = acts.to_vec(alloc).ok()?;
    let polls = polls.to_vec(alloc).ok()?;
    let world = read_world(alloc, WORLD).ok()?;
    Some(PlainMachine::new(alloc, world, looks, acts, polls))
}

/// Supplies bytes for a digest.
fn give(alloc: Global, run: &mut Run, digest: &[u8; 32], content: &[u8]) -> Option<bool>
    ensures waits { (started : ℕ) → WaitsBelow started run.old.place → WaitsBelow started run.new.place }
{
    let bytes = Bytes::from_slice(alloc, content).ok()?;
    Some(run.supply(digest, Some(bytes)))
}

/// Supplies `abc` or `abd` for the digest of `abc`, or `abc` for a digest of zeros, or nothing for the digest of `abc`.
fn supply(alloc: Global, run: &mut Run, how: char) -> Option<bool>
    ensures waits { (started : ℕ) → WaitsBelow started run.old.place → WaitsBelow started run.new.place }
{
    let digest = Sha256::digest(b"abc");
    match how {
        's' => give(alloc, run, &digest, b"abc"),
        'y' => give(alloc, run, &digest, b"abd"),
        'x' => give(alloc, run, &[0; 32], b"abc"),
        _ => Some(run.supply(&digest, None)),
    }
}

/// Supplies something, and says whether it was wanted.
fn supplied(alloc: Global, run: &mut Run, how: char, out: &mut Text) -> Option<()>
    ensures waits { (started : ℕ) → WaitsBelow started run.old.place → WaitsBelow started run.new.place }
{
    let taken = supply(alloc, run, how)?;
    out.push(if taken { "taken " } else { "not wanted " }).ok()
}

/// Somebody deletes `/a/one`.
fn delete_one(alloc: Global, machine: &mut PlainMachine) -> Option<()>
    ensures started { length machine.new.world.started ≡ length machine.old.world.started }
{
    let command = Command::Delete(Text::from_str(alloc, "/a/one").ok()?);
    machine.act(&command, 1000);
    drop(command);
    Some(())
}

/// Goes on, and says what was answered, done and looked up.
fn advance(
    alloc: Global,
    run: &mut Run,
    machine: &mut PlainMachine,
    moment: i64,
    offset: i64,
    out: &mut Text,
) -> Option<()>
    requires moment { IsMoment moment }
    requires offset { IsOffset offset }
    requires waits { WaitsBelow (length machine.old.world.started) run.old.place }
    ensures waits { WaitsBelow (length machine.new.world.started) run.new.place }
{
    let acted = machine.acted().len();
    let looked = machine.looked().len();
    let ran = run.advance(alloc, machine, moment, offset);
    let told = answer(alloc, &ran, out);
    drop(ran);
    told.ok()?;
    deeds(alloc, machine, acted, looked, out).ok()
}

/// `a` and `b` are advances at two times, `d` deletes a file, and the others supply something.
fn step(
    alloc: Global,
    run: &mut Run,
    machine: &mut PlainMachine,
    step: char,
    out: &mut Text,
) -> Option<()>
    requires waits { WaitsBelow (length machine.old.world.started) run.old.place }
    ensures waits { WaitsBelow (length machine.new.world.started) run.new.place }
{
    match step {
        'a' => advance(alloc, run, machine, 1000, 60, out),
        'b' => advance(alloc, run, machine, 2000, 0, out),
        'd' => delete_one(alloc, machine),
        how => supplied(alloc, run, how, out),
    }
}

/// Makes these steps.
fn steps(
    alloc: Global,
    run: &mut Run,
    machine: &mut PlainMachine,
    steps: &str,
    out: &mut Text,
) -> Option<()>
    requires waits { WaitsBelow (length machine.old.world.started) run.old.place }
{
    'steps: for at in steps.chars() {
        step(alloc, run, machine, at, out)?;
    }
    Some(())
}

/// Begins a script and makes these steps. The exit code that is known then.
fn went(
    alloc: Global,
    script: &Script,
    machine: &mut PlainMachine,
    at: &str,
    out: &mut Text,
) -> Option<Option<i64>> {
    let mut run = opened(alloc, script)?;
    let done = steps(alloc, &mut run, machine, at, out);
    let exit = run.exit();
    drop(run);
    done?;
    Some(exit)
}

/// The same from the beginning again at each `r`, and the exit code at the end.
fn said_of(
    alloc: Global,
    script: &Script,
    machine: &mut PlainMachine,
    steps: &str,
    out: &mut Text,
) -> Option<()> {
    let mut exit = None;
    for part in steps.split('r') {
        exit = went(alloc, script, machine, part, out)?;
    }
    let exit = match exit {
        None => format!(in alloc; "exit none").ok()?,
        Some(code) => format!(in alloc; "exit {code}").ok()?,
    };
    out.push(exit.as_str()).ok()
}

/// Appends what a script does at these steps.
pub(crate) fn played(
    alloc: Global,
    machine: &mut PlainMachine,
    text: &str,
    steps: &str,
    out: &mut Text,
) -> Option<()> {
    let script = script_of(alloc, text)?;
    let done = said_of(alloc, &script, machine, steps, out);
    drop(script);
    done
}

/// A script of 10,000 lines `delete /x`.
fn long_script(alloc: Global) -> Option<Script> {
    let mut lines = Vec::new(alloc);
    for _ in 0..10_000 {
        lines.push(Text::from_str(alloc, "delete /x").ok()?).ok()?;
    }
    script_of_lines(alloc, lines.as_slice())
}

/// Whether a script is done in one advance.
fn is_done_at_once(alloc: Global, script: &Script, machine: &mut PlainMachine) -> Option<bool> {
    let mut run = opened(alloc, script)?;
    let ran = run.advance(alloc, machine, 1000, 60);
    drop(run);
    let done = matches!(ran, Ran::Done);
    drop(ran);
    Some(done)
}

/// Whether 10,000 lines `delete /x` are done in one advance.
pub(crate) fn long_is_done(alloc: Global, machine: &mut PlainMachine) -> Option<bool> {
    let script = long_script(alloc)?;
    let done = is_done_at_once(alloc, &script, machine);
    drop(script);
    done
}
