// What is told of an agent and its devices.
use crate::said::{number, words};
use act_rules::{Outcome, Reapply, Rules};
use agent_core::{Agent, MemoryPocket};
use bf_machine::PlainMachine;
use rel_lexer::Text;
use report_text::Report;
use std::alloc::Global;

/// What is told.
#[derive(Clone, Copy)]
pub(crate) enum Shown {
    /// How many looks were made so far.
    Looks,
    /// The text in the pocket.
    Saved,
    /// The lines of attempts in that text.
    Attempts,
    /// How many saved reports there are, and the last one.
    Outbox,
    /// How many rows an action has, and whether the last is cleared.
    Rows(u64),
    /// Whether the tally of an action owes a run at this moment, under one retry after 60 seconds.
    Owed(u64, u32),
    /// The version of the kept site of this name.
    Version(&'static str),
}

/// The text in the pocket.
fn saved(pocket: &MemoryPocket) -> Option<&str> {
    match pocket.text() {
        Some(text) => str::from_utf8(text.as_slice()).ok(),
        None => Some("nothing\n"),
    }
}

fn attempts(pocket: &MemoryPocket, out: &mut Text) -> Option<()> {
    for line in saved(pocket)?.split_inclusive('\n') {
        if line.starts_with("attempt ") {
            out.push(line).ok()?;
        }
    }
    Some(())
}

fn outcome(end: Option<(i64, Outcome)>) -> &'static str {
    match end {
        None => "running",
        Some((_, Outcome::Fixed)) => "fixed",
        Some((_, Outcome::Failed)) => "failed",
        Some((_, Outcome::Interrupted)) => "interrupted",
    }
}

/// Tells the number of a report, how many rows it has, and the last of them.
fn report(alloc: Global, report: &Report, out: &mut Text) -> Option<()> {
    let rows = report.rows.as_slice();
    let said = format!(in alloc; ", last {} of {}", report.seq, rows.len()).ok()?;
    out.push(said.as_str()).ok()?;
    let Some(row) = rows.last() else {
        return Some(());
    };
    let said = format!(in alloc; ", {} {} ", row.action, row.number).ok()?;
    words(&[said.as_str(), outcome(row.end)], out).ok()
}

fn outbox(alloc: Global, agent: &Agent, out: &mut Text) -> Option<()> {
    let reports = agent.outbox();
    let said = format!(in alloc; "outbox {}", reports.len()).ok()?;
    out.push(said.as_str()).ok()?;
    if let Some(last) = reports.last() {
        report(alloc, last, out)?;
    }
    out.push("\n").ok()
}

fn rows(alloc: Global, agent: &Agent, action: u64, out: &mut Text) -> Option<()> {
    let Some(rows) = agent.rows(action) else {
        return out.push("no rows\n").ok();
    };
    let rows = rows.as_slice();
    let said = format!(in alloc; "rows {}", rows.len()).ok()?;
    let cleared = match rows.last() {
        Some(row) => row.cleared.is_some(),
        None => false,
    };
    words(
        &[said.as_str(), if cleared { ", cleared\n" } else { "\n" }],
        out,
    )
    .ok()
}

/// One retry after 60 seconds, and no run again.
const RETRIED: Rules = Rules {
    start: None,
    until: None,
    client: false,
    hours: None,
    days: [true; 7],
    retries: 1,
    wait: 60,
    reapply: Reapply::Never,
};

/// Whether the tally of an action owes a run.
fn owed(agent: &Agent, action: u64, moment: u32) -> &'static str {
    let Some(tally) = agent.tally(action) else {
        return "no tally\n";
    };
    let last = match agent.rows(action) {
        Some(rows) => rows.as_slice().last(),
        None => None,
    };
    if tally.owed(&RETRIED, last, i64::from(moment)) {
        "owed\n"
    } else {
        "not owed\n"
    }
}

fn version(alloc: Global, agent: &Agent, site: &str, out: &mut Text) -> Option<()> {
    let name = Text::from_str(alloc, site).ok()?;
    out.push("version ").ok()?;
    number(alloc, agent.version(&name), "\n", out).ok()
}

/// Tells it.
pub(crate) fn show(
    alloc: Global,
    agent: &Agent,
    machine: &PlainMachine,
    pocket: &MemoryPocket,
    what: Shown,
    out: &mut Text,
) -> Option<()> {
    match what {
        Shown::Looks => {
            let said = format!(in alloc; "looks {}\n", machine.looked().len()).ok()?;
            out.push(said.as_str()).ok()
        }
        Shown::Saved => out.push(saved(pocket)?).ok(),
        Shown::Attempts => attempts(pocket, out),
        Shown::Outbox => outbox(alloc, agent, out),
        Shown::Rows(action) => rows(alloc, agent, action, out),
        Shown::Owed(action, moment) => out.push(owed(agent, action, moment)).ok(),
        Shown::Version(site) => version(alloc, agent, site, out),
    }
}
