ghost use Rattle.std.specs.Prelude.{IsTrue, ◌↔◌, ◌∷◌, [], Some};
ghost use Rattle.act_rules.specs.Rows.{IsRows};
ghost use Rattle.act_rules.specs.Tallies.{StandsFor};
ghost use Rattle.agent_attempt.specs.ActionContents.{fixlets_at, group};
ghost use Rattle.agent_attempt.specs.Relevance.{AsksThen, ContentIs, HasAsked, MayBegin, SomeIs, Targets, and_then};
ghost use Rattle.agent_attempt.specs.FoundContents.{shown_content, shown_if};

use crate::found::Found;
use crate::read_block::{ReadAction, ReadBaseline};
use crate::read_site::{Content, ReadSite};
use crate::time::Time;
use act_rules::{Row, Tally, window};
use bf_machine::Machine;
use rel_lexer::Text;
use std::alloc::Global;

/// The most rows of an action.
const MOST_ROWS: usize = 4_294_967_295;

/// Whether content is relevant. What isn't gathered isn't.
pub fn relevant<M: Machine>(
    alloc: Global,
    content: Option<Content<'_>>,
    machine: &mut M,
    time: &Time,
) -> Found
    ensures content { ContentIs time.now (shown_if content.entry) (M.told machine.old) result (M.told machine.new) }
    ensures asked { HasAsked (M.told machine.old) result (M.told machine.new) }
{
    match content {
        None => Found::No,
        Some(content) => content_relevant(alloc, content, machine, time),
    }
}

/// Whether content that is gathered is relevant.
fn content_relevant<M: Machine>(
    alloc: Global,
    content: Content<'_>,
    machine: &mut M,
    time: &Time,
) -> Found
    ensures { ContentIs time.now (Some (shown_content content.entry)) (M.told machine.old) result (M.told machine.new) }
{
    match content {
        Content::Fixlet(fixlet) => fixlet.is_relevant(alloc, machine, time),
        Content::Baseline(of_site) => {
            baseline_relevant(alloc, of_site.site, of_site.baseline, machine, time)
        }
    }
}

/// Whether a baseline of a site is relevant.
fn baseline_relevant<M: Machine>(
    alloc: Global,
    site: &ReadSite,
    baseline: &ReadBaseline,
    machine: &mut M,
    time: &Time,
) -> Found
    ensures { ContentIs time.now (Some (group baseline.now.relevance (fixlets_at baseline.now.components site.now.blocks)))
        (M.told machine.old) result
        (M.told machine.new) }
{
    match baseline.ask(alloc, machine, time) {
        Found::Yes => some_relevant(alloc, site, baseline.components(), machine, time),
        found => found,
    }
}

/// Asks the fixlets of these ids in order, up to the first that is relevant.
fn some_relevant<M: Machine>(
    alloc: Global,
    site: &ReadSite,
    ids: &[u64],
    machine: &mut M,
    time: &Time,
) -> Found
    ensures { SomeIs time.now (fixlets_at ids.now site.now.blocks) (M.told machine.old) result (M.told machine.new) }
{
    for id in ids {
        match one_relevant(alloc, site, *id, machine, time) {
            Found::No => {}
            found => return found,
        }
    }
    Found::No
}

/// Asks the fixlet of this id. Where there is none, none is relevant.
fn one_relevant<M: Machine>(
    alloc: Global,
    site: &ReadSite,
    id: u64,
    machine: &mut M,
    time: &Time,
) -> Found
    ensures { SomeIs time.now (fixlets_at (id ∷ []) site.now.blocks) (M.told machine.old) result (M.told machine.new) }
{
    match site.fixlet(id) {
        Some(fixlet) => fixlet.is_relevant(alloc, machine, time),
        None => Found::No,
    }
}

/// Whether an action may begin, by its rows, for which the tally stands: what can be said without a look.
pub fn may_begin(action: &ReadAction, rows: &[Row], tally: &Tally, time: &Time) -> bool
    requires rows { IsRows rows.now }
    requires tally { StandsFor tally.now action.now.rules.retries rows.now }
    ensures { IsTrue result ↔ MayBegin time.now action.now rows.now }
{
    let rules = &action.action().rules;
    if rows.len() >= MOST_ROWS {
        return false;
    }
    if action.action().stopped {
        return false;
    }
    if !tally.owed(rules, rows.last(), time.moment()) {
        return false;
    }
    window(rules, time.moment(), time.offset())
}

/// Whether an action that may begin is due: whether it targets this computer and its content is relevant.
pub fn wanted<M: Machine>(
    alloc: Global,
    computer: &Text,
    action: &ReadAction,
    content: Option<Content<'_>>,
    machine: &mut M,
    time: &Time,
) -> Found
    ensures wanted { AsksThen (Targets time.now computer.now action.now.target)
        (λ found. and_then found (ContentIs time.now (shown_if content.entry)))
        (M.told machine.old) result
        (M.told machine.new) }
    ensures asked { HasAsked (M.told machine.old) result (M.told machine.new) }
{
    match action.targets(alloc, computer, machine, time) {
        Found::Yes => relevant(alloc, content, machine, time),
        found => found,
    }
}
