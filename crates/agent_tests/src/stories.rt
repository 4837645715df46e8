// Stories of agents: what happens in the lives of one, and what is told of it. Each function owns one dear thing at most, which it drops
// once.
use crate::played::{Faults, Step, machine_of, opened, pocket_of, steps};
use agent_core::MemoryPocket;
use bf_machine::PlainMachine;
use rel_lexer::Text;
use std::alloc::Global;
use std::mem::drop;
use std::test::Fail;

/// Calls that fail, the text in the pocket, if it isn't empty, what happens in each life of the agent, and what is told of it.
#[derive(Clone, Copy)]
pub(crate) struct Story {
    pub(crate) faults: Faults,
    pub(crate) saved: &'static str,
    pub(crate) lives: &'static [&'static [Step]],
    pub(crate) wanted: &'static str,
}

/// An agent is opened, lives, and is thrown away.
fn lives(
    alloc: Global,
    machine: &mut PlainMachine,
    pocket: &mut MemoryPocket,
    life: &[Step],
    out: &mut Text,
) -> Option<()> {
    let mut agent = opened(alloc, pocket)?;
    let done = steps(alloc, &mut agent, machine, pocket, life, out);
    drop(agent);
    done
}

fn lives_all(
    alloc: Global,
    machine: &mut PlainMachine,
    pocket: &mut MemoryPocket,
    all: &[&[Step]],
    out: &mut Text,
) -> Option<()> {
    for life in all {
        lives(alloc, machine, pocket, life, out)?;
    }
    Some(())
}

/// Plays a story with its machine, over this pocket.
fn played_over(
    alloc: Global,
    pocket: &mut MemoryPocket,
    story: &Story,
    out: &mut Text,
) -> Option<()> {
    let mut machine = machine_of(alloc, story.faults)?;
    let done = lives_all(alloc, &mut machine, pocket, story.lives, out);
    drop(machine);
    done
}

/// What is told of a story over a pocket with this text.
fn played(alloc: Global, saved: &str, story: &Story) -> Option<Text> {
    let mut out = Text::from_str(alloc, "").ok()?;
    let mut pocket = pocket_of(alloc, saved, story.faults.saves)?;
    let done = played_over(alloc, &mut pocket, story, &mut out);
    drop(pocket);
    done?;
    Some(out)
}

/// Plays a story over a pocket with this text, and compares what is told of it. What is told otherwise stands behind what it is about.
pub(crate) fn plays_from(
    alloc: Global,
    about: &str,
    saved: &str,
    story: &Story,
) -> Result<(), Fail> {
    let said = played(alloc, saved, story).ok_or("not played")?;
    if said.as_str() == story.wanted {
        return Ok(());
    }
    Err(format!(in alloc; "{about}: {}", said.as_str())?.into())
}

/// Plays stories about one thing, and compares what is told of them.
pub(crate) fn plays(alloc: Global, about: &str, stories: &[Story]) -> Result<(), Fail> {
    for story in stories {
        plays_from(alloc, about, story.saved, story)?;
    }
    Ok(())
}
