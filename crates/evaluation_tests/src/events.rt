//! The events of a question in their order, worked out by hand. No command tells them.

use crate::described::{machine, scene};
use bf_machine::PlainMachine;
use rel_eval::prepare;
use rel_inspect::Scene;
use rel_nodes::{Node, begin};
use rel_trace::{Scope, Step};
use rel_types::Node as Part;
use std::alloc::Global;
use std::mem::drop;
use std::test::Fail;

/// Nothing is handed down to a question.
const ALONE: Scope<'static> = Scope {
    it: None,
    argument: None,
    left: None,
};

/// The next events of a node, up to the first that is neither a look nor a turn: with nothing left a node stops behind each turn and
/// before each look. A look is `L` and a turn `T`, each with the byte at which its place begins; a value is `v`, the end `.`, and an
/// error `!`.
fn events(
    alloc: Global,
    node: &mut Node,
    scene: &Scene,
    machine: &mut PlainMachine,
    events: &mut String,
) -> Result<(), Fail> {
    let mut left = 0;
    for _ in 0..100 {
        match node.step(alloc, &ALONE, scene, machine, &mut left) {
            Step::Turned(place) => write!(events, "T{}", place.from)?,
            Step::Full(place) => {
                write!(events, "L{}", place.from)?;
                left = 1;
            }
            other => {
                let sign = match other {
                    Step::Given(_) => "v",
                    Step::Over => ".",
                    Step::Erred(_, _) => "!",
                    _ => "?",
                };
                events.push_str(sign)?;
                return Ok(());
            }
        }
    }
    Ok(())
}

/// Appends the next events twice.
fn both_events(
    alloc: Global,
    node: &mut Node,
    scene: &Scene,
    machine: &mut PlainMachine,
    found: &mut String,
) -> Result<(), Fail> {
    events(alloc, node, scene, machine, found)?;
    events(alloc, node, scene, machine, found)
}

/// Appends the events of a part up to its second value or its end.
fn push_events(
    alloc: Global,
    part: &Part,
    machine: &mut PlainMachine,
    found: &mut String,
) -> Result<(), Fail> {
    let Ok(mut node) = begin(alloc, part) else {
        return Err("no node".into());
    };
    node.reset();
    let scene = scene(alloc);
    let pushed = both_events(alloc, &mut node, &scene, machine, found);
    drop(node);
    pushed
}

/// The same on a machine of its own.
fn push_events_there(alloc: Global, part: &Part, found: &mut String) -> Result<(), Fail> {
    let Some(mut machine) = machine(alloc, &[]) else {
        return Err("no machine".into());
    };
    let pushed = push_events(alloc, part, &mut machine, found);
    drop(machine);
    pushed
}

#[test]
fn events_come_in_their_order(rt: HostRuntime) -> Result<(), Fail> {
    let alloc = rt.alloc();
    let text = b"names of files whose (line 1 of it contains \"x\") of folder \"/a\"";
    let Ok(question) = prepare(alloc, text) else {
        return Err("refused".into());
    };
    let mut found = String::new(alloc);
    let pushed = push_events_there(alloc, question.plan().root(), &mut found);
    drop(question);
    pushed?;
    assert_eq!(rt; found.as_str(), "L52T9L9T9T9T22L22T9T9T22L22T0v.");
    Ok(())
}
