// Attempts over a machine: what is due, and how it goes on. Each function owns one dear thing at most, which it drops once.
ghost use Rattle.std.specs.Prelude.{ℕ, length};
ghost use Rattle.agent_attempt.specs.Attempts.{StageWaitsBelow};
ghost use Rattle.agent_attempt.specs.Stages.{shown_stage};

use act_rules::{Rows, Tally};
use agent_attempt::{
    Attempt, Content, Fail, Found, ReadAction, ReadBlock, ReadSite, Time, Went, may_begin,
    relevant, wanted,
};
use bf_machine::{PlainMachine, read_world};
use desk_base::Bytes;
use fix_site::read_site;
use line_forms::write_digest;
use rel_lexer::Text;
use sha2::{Digest, Sha256};
use std::alloc::Global;
use std::mem::drop;
use std::test::Fail as Failed;

const WORLD: &[u8] = b"world
name pc1
system 12.4 Debian
offset 60
moment 1000
folder /etc
end
";

/// A baseline of three fixlets: one that isn't relevant, one that fetches the file `abc`, and one that copies a file which isn't there.
const DESK: &[u8] = b"site desk 1
fixlet 1
title None
relevance exists folder \"/opt\"
success lines
| folder create /opt
end
fixlet 2
title Fetches
relevance exists folder \"/etc\"
success lines
| prefetch p sha1:a9993e364706816aba3e25717850c26c9cd0d89d size:3 http://host/p sha256:ba7816bf8f01cfea414140de5dae2223b00361a396177a9cb410ff61f20015ad
end
fixlet 3
title Fails
success lines
| folder create /t
| copy \"/no\" \"/t/no\"
end
baseline 4
title All
component 1
component 2
component 3
end
";

const ACTIONS: &[u8] = b"site actionsite 1
action 7
issued 900
content desk 4
members stop
target all
start none
until none
hours none
days 1111111
retries 1 60
reapply never
state open
end
";

/// The text of a site with these lines, and the digest of them in a last one.
fn sealed(alloc: Global, body: &[u8]) -> Option<Bytes> {
    let mut text = Bytes::from_slice(alloc, body).ok()?;
    text.extend(b"digest ").ok()?;
    write_digest(&Sha256::digest(body), &mut text).ok()?;
    text.push(b'\n').ok()?;
    Some(text)
}

fn read(alloc: Global, body: &[u8]) -> Option<ReadSite> {
    let text = sealed(alloc, body)?;
    match read_site(alloc, text.as_slice()) {
        Ok(site) => ReadSite::read(alloc, &site).ok(),
        Err(_) => None,
    }
}

fn machine(alloc: Global) -> Option<PlainMachine> {
    let world = read_world(alloc, WORLD).ok()?;
    Some(PlainMachine::new(
        alloc,
        world,
        Vec::new(alloc),
        Vec::new(alloc),
        Vec::new(alloc),
    ))
}

fn word(found: Found) -> &'static str {
    match found {
        Found::Yes => "yes, ",
        Found::No => "no, ",
        Found::Failed => "failed, ",
        Found::Memory => "memory, ",
    }
}

/// Says whether the content is relevant, and whether the action is due on pc1.
fn ask(
    alloc: Global,
    action: &ReadAction,
    content: Content<'_>,
    machine: &mut PlainMachine,
    time: &Time,
    said: &mut Text,
) -> Option<()> {
    said.push(word(relevant(alloc, Some(content), machine, time)))
        .ok()?;
    let rows = Rows::new(alloc);
    let tally = Tally::of(action.action().rules.retries, &rows);
    let name = Text::from_str(alloc, "pc1").ok()?;
    let found = if may_begin(action, rows.as_slice(), &tally, time) {
        wanted(alloc, &name, action, Some(content), machine, time)
    } else {
        Found::No
    };
    said.push(word(found)).ok()
}

/// Where it failed.
fn place(alloc: Global, fail: &Fail, said: &mut Text) -> Option<()> {
    let copy = fail.copy().ok()?;
    let text = format!(in alloc; "failed {} {}", copy.component, copy.line).ok()?;
    said.push(text.as_str()).ok()
}

fn say(alloc: Global, went: &Went, said: &mut Text) -> Option<()> {
    match &went.copy().ok()? {
        Went::Held { .. } => said.push("held, ").ok(),
        Went::Wants { .. } => said.push("wants, ").ok(),
        Went::Ended { fail: None, .. } => said.push("fixed").ok(),
        Went::Ended {
            fail: Some(fail),
            ..
        } => place(alloc, fail, said),
        Went::Memory => said.push("memory, ").ok(),
    }
}

fn go_on(
    alloc: Global,
    attempt: &mut Attempt,
    machine: &mut PlainMachine,
    time: &Time,
    said: &mut Text,
) -> Option<()>
    requires waits { StageWaitsBelow (length machine.old.world.started) (shown_stage attempt.old.stage) }
    ensures waits { StageWaitsBelow (length machine.new.world.started) (shown_stage attempt.new.stage) }
{
    let went = attempt.go_on(alloc, machine, time);
    let done = say(alloc, &went, said);
    drop(went);
    done
}

/// Supplies the file `abc`.
fn supply(alloc: Global, attempt: &mut Attempt, said: &mut Text) -> Option<()>
    ensures waits { (started : ℕ) → StageWaitsBelow started (shown_stage attempt.old.stage)
        → StageWaitsBelow started (shown_stage attempt.new.stage) }
{
    let bytes = Bytes::from_slice(alloc, b"abc").ok()?;
    let taken = attempt.supply(&Sha256::digest(b"abc"), Some(bytes));
    said.push(if taken { "taken, " } else { "not wanted, " })
        .ok()
}

fn steps(
    alloc: Global,
    attempt: &mut Attempt,
    machine: &mut PlainMachine,
    time: &Time,
    said: &mut Text,
) -> Option<()>
    requires waits { StageWaitsBelow (length machine.old.world.started) (shown_stage attempt.old.stage) }
{
    go_on(alloc, attempt, machine, time, said)?;
    supply(alloc, attempt, said)?;
    go_on(alloc, attempt, machine, time, said)
}

/// An attempt of a baseline, from its beginning on.
fn attempted(
    alloc: Global,
    action: &ReadAction,
    content: Content<'_>,
    machine: &mut PlainMachine,
    time: &Time,
    said: &mut Text,
) -> Option<()> {
    let Content::Baseline(_) = content else {
        return None;
    };
    let mut attempt = Attempt::begin(alloc, action, content, 1, 60).ok()?;
    let done = steps(alloc, &mut attempt, machine, time, said);
    drop(attempt);
    done
}

/// What becomes of the first block of the actions, which is one, with its content in this site.
fn played(
    alloc: Global,
    actions: &ReadSite,
    desk: &ReadSite,
    machine: &mut PlainMachine,
    said: &mut Text,
) -> Option<()> {
    let Some(ReadBlock::Action(action)) = actions.blocks().first() else {
        return None;
    };
    let content = desk.content(action.action().content)?;
    let time = Time::new(alloc, 1000, 60);
    ask(alloc, action, content, machine, &time, said)?;
    attempted(alloc, action, content, machine, &time, said)
}

fn played_over(alloc: Global, actions: &ReadSite, desk: &ReadSite, said: &mut Text) -> Option<()> {
    let mut machine = machine(alloc)?;
    let done = played(alloc, actions, desk, &mut machine, said);
    drop(machine);
    done
}

fn played_of(alloc: Global, actions: &ReadSite, said: &mut Text) -> Option<()> {
    let desk = read(alloc, DESK)?;
    let done = played_over(alloc, actions, &desk, said);
    drop(desk);
    done
}

fn said(alloc: Global) -> Option<Text> {
    let mut said = Text::from_str(alloc, "").ok()?;
    let actions = read(alloc, ACTIONS)?;
    let done = played_of(alloc, &actions, &mut said);
    drop(actions);
    done?;
    Some(said)
}

#[test]
fn a_due_baseline_goes_on_until_a_component_fails(rt: HostRuntime) -> Result<(), Failed> {
    let Some(said) = said(rt.alloc()) else {
        return Err("no memory".into());
    };
    assert_eq!(rt; said.as_str(), "yes, yes, wants, taken, failed 3 2");
    Ok(())
}
