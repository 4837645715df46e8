// Clearing marks.
ghost use Rattle.std.specs.Prelude.{◌≡◌, ◌∷◌, [], IfOk, MatchResult, None};
ghost use Rattle.std.specs.List.{filter_map};
ghost use Rattle.act_rules.specs.Rows.{last_row};
ghost use Rattle.agent_text.specs.Histories.{AreHistories, rows_at};
ghost use Rattle.agent_attempt.specs.ReadBlocks.{shown_block};
ghost use Rattle.agent_attempt.specs.ActionContents.{actions_of, as_action};
ghost use Rattle.agent_core.specs.Inside.{IsSoundKept, state_of};
ghost use Rattle.agent_state.specs.Lookups.{rows_if};
ghost use Rattle.agent_core.specs.Marked.{AreBefore, UndoneSame, undone};
ghost use Rattle.agent_core.specs.Marking.{HasMarks, StopsMarks};
ghost use Rattle.agent_core.specs.Steps.{MakesMarks, TestsMark};
ghost use Rattle.agent_core.specs.Turns.{may_clear};

use crate::kept_state::KeptState;
use crate::turned::Turned;
use act_rules::Rows;
use agent_attempt::{Found, ReadAction, ReadBlock, Time, relevant};
use agent_state::rows_of;
use agent_text::{Before, Histories, changed_histories_can_be_saved};
use bf_machine::Machine;
use std::alloc::{AllocError, Global};
use std::mem;

/// What marking comes to: whether anything is marked, and what stood before of what may be.
#[derive(Drop)]
pub(crate) struct Marked {
    pub any: bool,
    pub before: Vec<Before>,
}

impl KeptState {
    /// Marks what isn't relevant any more as cleared. At a stop nothing has changed.
    pub(crate) fn mark<M: Machine>(
        &mut self,
        alloc: Global,
        machine: &mut M,
        time: &Time,
    ) -> Result<Marked, Turned>
        requires sound { IsSoundKept self.old }
        requires free { self.old.held ≡ None }
        ensures { MatchResult result
            (λ marked. HasMarks time.now self.old (M.told machine.old) marked self.new (M.told machine.new))
            (λ stop. StopsMarks time.now (state_of self.old) (actions_of self.old.sites) (M.told machine.old) stop (M.told machine.new)
            × (self.new ≡ self.old)) }
    {
        let Ok(before) = self.before_marks(alloc) else {
            return Err(Turned::Memory);
        };
        if before.is_empty() {
            return Ok(Marked { any: false, before });
        }
        let mut histories = mem::replace(&mut self.histories, Histories::new(alloc));
        let cleared = self.clear(alloc, machine, time, &mut histories);
        self.histories = histories;
        match cleared {
            Ok(any) => Ok(Marked { any, before }),
            Err(stop) => {
                self.unmark(before);
                Err(stop)
            }
        }
    }

    /// What stands of each action whose last row has ended and isn't cleared, so that it can be put back once it is marked.
    fn before_marks(&self, alloc: Global) -> Result<Vec<Before>, AllocError>
        ensures { IfOk result (λ before. AreBefore before.items self.now.histories) }
    {
        let mut before = Vec::new(alloc);
        for history in self.histories.as_slice() {
            if may_clear(Some(&history.rows)) {
                before.push(self.histories.before(history.action)?)?;
            }
        }
        Ok(before)
    }

    /// Puts back what stood before marks.
    pub(crate) fn unmark(&mut self, mut before: Vec<Before>)
        ensures { self.new ≡ record self.old { histories = undone before.items self.old.histories } }
    {
        while let Some(last) = before.pop() {
            self.histories.put_back(last);
        }
    }

    /// Marks the last row of each action that has ended, isn't cleared and isn't relevant. Answers whether there is any.
    fn clear<M: Machine>(
        &self,
        alloc: Global,
        machine: &mut M,
        time: &Time,
        marked: &mut Histories,
    ) -> Result<bool, Turned>
        requires { AreHistories marked.old }
        ensures marks { MakesMarks time.now (state_of self.now) (actions_of self.now.sites) marked.old
            (M.told machine.old) result marked.new (M.told machine.new) }
        ensures undo { UndoneSame marked.old marked.new }
    {
        let mut any = false;
        for (place, block) in self.sites.actions().iter().enumerate() {
            if self.clear_block(alloc, machine, time, block, place, marked)? {
                any = true;
            }
        }
        Ok(any)
    }

    /// Marks the last row of the action of this block, if it is an action's and is to be marked. Answers whether it is. The block stands
    /// at this place.
    fn clear_block<M: Machine>(
        &self,
        alloc: Global,
        machine: &mut M,
        time: &Time,
        block: &ReadBlock,
        place: usize,
        marked: &mut Histories,
    ) -> Result<bool, Turned>
        requires good { AreHistories marked.old }
        ensures marks { MakesMarks time.now (state_of self.now) (filter_map as_action (shown_block block.now ∷ [])) marked.old
            (M.told machine.old) result marked.new (M.told machine.new) }
        ensures undo { UndoneSame marked.old marked.new }
    {
        let ReadBlock::Action(action) = block else {
            return Ok(false);
        };
        if !self.is_cleared_now(alloc, machine, time, action, place, marked)? {
            return Ok(false);
        }
        changed_histories_can_be_saved();
        marked.clear(action.action().id, time.moment());
        Ok(true)
    }

    /// Whether the last row of an action is to be marked. Its history stands at this place where the actions before it have some, so it
    /// is looked at there first.
    fn is_cleared_now<M: Machine>(
        &self,
        alloc: Global,
        machine: &mut M,
        time: &Time,
        action: &ReadAction,
        place: usize,
        marked: &Histories,
    ) -> Result<bool, Turned>
        ensures { TestsMark (may_clear (last_row (rows_at action.now.id marked.now))) time.now (state_of self.now) action.now
            (M.told machine.old) result (M.told machine.new) }
    {
        if !may_clear(marked.rows_near(action.action().id, place)) {
            return Ok(false);
        }
        let content = self.sites.content_near(action.action(), place);
        match relevant(alloc, content, machine, time) {
            Found::Yes => Ok(false),
            Found::No => Ok(true),
            Found::Failed => Err(Turned::MachineFault),
            Found::Memory => Err(Turned::Memory),
        }
    }
}

/// Whether the last of these rows has ended and isn't cleared.
fn may_clear(rows: Option<&Rows>) -> bool
    ensures { result ≡ may_clear (last_row (rows_if rows.entry)) }
{
    match rows_of(rows).last() {
        Some(row) => row.end.is_some() && row.cleared.is_none(),
        None => false,
    }
}
