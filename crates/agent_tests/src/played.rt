// Playing what happens to an agent. Each function owns one dear thing at most, which it drops once.
ghost use Rattle.std.specs.Prelude.{◌≡◌, ℕ, length, IfSome};
ghost use Rattle.fix_site.specs.Sites.{IsSite};
ghost use Rattle.line_forms.specs.Numbers.{IsOffset};
ghost use Rattle.agent_core.specs.Agents.{shown_state};
ghost use Rattle.agent_core.specs.Stops.{HeldWaitsBelow};

use crate::said::{deeds, told};
use crate::shown::{Shown, show};
use agent_core::{Agent, Gathered, MemoryPocket, Opened, Pocket, Verdict};
use bf_machine::{Command, Machine, PlainMachine, read_world};
use desk_base::Bytes;
use fix_site::{Site, read_site};
use line_forms::{read_name, write_digest};
use rel_lexer::Text;
use sha2::{Digest, Sha256};
use std::alloc::Global;
use std::mem::drop;

/// A world with an agent's daemon and a program that upgrades it, with one that is polled three times, and one that ends at once.
pub(crate) const WORLD: &str = "world
name pc1
system 12.4 Debian
offset 60
moment 1000
folder /etc
folder /etc/agentd
file 500 /etc/agentd/conf
| mode=old
package 1.1 agentd
program 1 0 upgrade agentd
gives 1.2 agentd
program 3 7 slow
program 0 7 quick
end
";

/// The numbers of the calls that fail.
#[derive(Clone, Copy)]
pub(crate) struct Faults {
    pub(crate) looks: &'static [u32],
    pub(crate) acts: &'static [u32],
    pub(crate) saves: &'static [u32],
}

/// No call fails.
pub(crate) const SOUND: Faults = Faults {
    looks: &[],
    acts: &[],
    saves: &[],
};

/// What comes for the file `abc`.
#[derive(Clone, Copy)]
pub(crate) enum File {
    /// Its bytes.
    Abc,
    /// That it isn't served.
    Absent,
    /// That another file isn't served.
    Other,
}

/// What happens.
#[derive(Clone, Copy)]
pub(crate) enum Step {
    /// The agent gathers the site of these texts, one after another, whose digest is made.
    Gather(&'static [&'static str]),
    /// It makes a turn at this moment, at the offset 60.
    Turn(u32),
    /// The same at the offset 120.
    TurnAt120(u32),
    /// The report of this number is settled.
    Settle(u64, Verdict),
    /// A file is supplied.
    Supply(File),
    /// Somebody deletes this file.
    Delete(&'static str),
    /// The pocket is given this text.
    Put(&'static str),
    /// Something is told.
    Show(Shown),
}

/// The text of a site of these texts, and the digest of them in a last line.
fn sealed(alloc: Global, texts: &[&str]) -> Option<Bytes> {
    let mut text = Bytes::new(alloc);
    for piece in texts {
        text.extend(piece.as_bytes()).ok()?;
    }
    let digest = Sha256::digest(text.as_slice());
    text.extend(b"digest ").ok()?;
    write_digest(&digest, &mut text).ok()?;
    text.push(b'\n').ok()?;
    Some(text)
}

/// The site of these texts.
pub(crate) fn site(alloc: Global, texts: &[&str]) -> Option<Site>
    ensures { IfSome result IsSite }
{
    let text = sealed(alloc, texts)?;
    match read_site(alloc, text.as_slice()) {
        Ok(site) => Some(site),
        Err(_) => None,
    }
}

/// Gathers a site, and says where it is older.
fn gather(alloc: Global, agent: &mut Agent, texts: &[&str], out: &mut Text) -> Option<()>
    ensures waits { (started : ℕ) → HeldWaitsBelow started (shown_state agent.old).held
        → HeldWaitsBelow started (shown_state agent.new).held }
{
    let site = site(alloc, texts)?;
    let gathered = agent.gather(alloc, &site);
    drop(site);
    match gathered {
        Gathered::New => Some(()),
        Gathered::Older(kept) => {
            let said = format!(in alloc; "older than {kept}\n").ok()?;
            out.push(said.as_str()).ok()
        }
        Gathered::Memory => None,
    }
}

/// Makes a turn, and says what it came to and what was done.
fn turn(
    alloc: Global,
    agent: &mut Agent,
    machine: &mut PlainMachine,
    pocket: &mut MemoryPocket,
    moment: u32,
    offset: i64,
    out: &mut Text,
) -> Option<()>
    requires offset { IsOffset offset }
    requires waits { HeldWaitsBelow (length machine.old.world.started) (shown_state agent.old).held }
    ensures waits { HeldWaitsBelow (length machine.new.world.started) (shown_state agent.new).held }
{
    let acted = machine.acted().len();
    let turned = agent.turn(alloc, machine, pocket, i64::from(moment), offset);
    let said = told(alloc, &turned, out);
    drop(turned);
    said.ok()?;
    deeds(machine, acted, out).ok()
}

/// Settles a report, and says whether it was dropped.
fn settle(agent: &mut Agent, seq: u64, verdict: &Verdict, out: &mut Text) -> Option<()>
    ensures waits { (started : ℕ) → HeldWaitsBelow started (shown_state agent.old).held
        → HeldWaitsBelow started (shown_state agent.new).held }
{
    let dropped = agent.settle(seq, verdict);
    out.push(if dropped {
        "dropped\n"
    } else {
        "not dropped\n"
    })
    .ok()
}

/// Gives an agent what came of a file.
fn give(alloc: Global, agent: &mut Agent, file: File) -> Option<bool>
    ensures waits { (started : ℕ) → HeldWaitsBelow started (shown_state agent.old).held
        → HeldWaitsBelow started (shown_state agent.new).held }
{
    let digest = Sha256::digest(b"abc");
    match file {
        File::Abc => {
            let bytes = Bytes::from_slice(alloc, b"abc").ok()?;
            Some(agent.supply(&digest, Some(bytes)))
        }
        File::Absent => Some(agent.supply(&digest, None)),
        File::Other => Some(agent.supply(&[0; 32], None)),
    }
}

/// Supplies a file, and says whether it was wanted.
fn supply(alloc: Global, agent: &mut Agent, file: File, out: &mut Text) -> Option<()>
    ensures waits { (started : ℕ) → HeldWaitsBelow started (shown_state agent.old).held
        → HeldWaitsBelow started (shown_state agent.new).held }
{
    let taken = give(alloc, agent, file)?;
    out.push(if taken { "taken\n" } else { "not wanted\n" })
        .ok()
}

/// Somebody deletes a file.
fn delete(alloc: Global, machine: &mut PlainMachine, path: &str) -> Option<()>
    ensures started { length machine.new.world.started ≡ length machine.old.world.started }
{
    let command = Command::Delete(Text::from_str(alloc, path).ok()?);
    machine.act(&command, 1000);
    drop(command);
    Some(())
}

fn one_step(
    alloc: Global,
    agent: &mut Agent,
    machine: &mut PlainMachine,
    pocket: &mut MemoryPocket,
    step: Step,
    out: &mut Text,
) -> Option<()>
    requires waits { HeldWaitsBelow (length machine.old.world.started) (shown_state agent.old).held }
    ensures waits { HeldWaitsBelow (length machine.new.world.started) (shown_state agent.new).held }
{
    match step {
        Step::Gather(texts) => gather(alloc, agent, texts, out),
        Step::Turn(moment) => turn(alloc, agent, machine, pocket, moment, 60, out),
        Step::TurnAt120(moment) => turn(alloc, agent, machine, pocket, moment, 120, out),
        Step::Settle(seq, verdict) => settle(agent, seq, &verdict, out),
        Step::Supply(file) => supply(alloc, agent, file, out),
        Step::Delete(path) => delete(alloc, machine, path),
        Step::Put(text) => {
            pocket.save(text.as_bytes());
            Some(())
        }
        Step::Show(what) => show(alloc, agent, machine, pocket, what, out),
    }
}

pub(crate) fn steps(
    alloc: Global,
    agent: &mut Agent,
    machine: &mut PlainMachine,
    pocket: &mut MemoryPocket,
    steps: &[Step],
    out: &mut Text,
) -> Option<()>
    requires waits { HeldWaitsBelow (length machine.old.world.started) (shown_state agent.old).held }
{
    'steps: for at in steps {
        one_step(alloc, agent, machine, pocket, *at, out)?;
    }
    Some(())
}

/// The agent of pc1, opened from its pocket.
pub(crate) fn opened(alloc: Global, pocket: &mut MemoryPocket) -> Option<Agent>
    ensures { IfSome result (λ agent. (started : ℕ) → HeldWaitsBelow started (shown_state agent).held) }
{
    let name = Text::from_str(alloc, read_name(b"pc1")?).ok()?;
    match Agent::open(alloc, &name, pocket) {
        Opened::Agent(agent) => Some(agent),
        _ => None,
    }
}

/// The machine over the world.
pub(crate) fn machine_of(alloc: Global, faults: Faults) -> Option<PlainMachine> {
    let looks = faults.looks.to_vec(alloc).ok()?;
    let acts = faults.acts.to_vec(alloc).ok()?;
    let world = read_world(alloc, WORLD.as_bytes()).ok()?;
    Some(PlainMachine::new(alloc, world, looks, acts, Vec::new(alloc)))
}

/// A pocket with this text, if it isn't empty. To put it there is the first of its saves.
pub(crate) fn pocket_of(alloc: Global, saved: &str, saves: &[u32]) -> Option<MemoryPocket> {
    let saves = saves.to_vec(alloc).ok()?;
    let mut pocket = MemoryPocket::new(alloc, Vec::new(alloc), saves);
    if !saved.is_empty() {
        pocket.save(saved.as_bytes());
    }
    Some(pocket)
}
