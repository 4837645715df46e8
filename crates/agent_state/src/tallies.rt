ghost use Rattle.std.specs.Prelude.{◌≡◌, [], ℤ, List, map, IfOk, IsSomeAnd, None};
ghost use Rattle.std.specs.List.{filter_map};
ghost use Rattle.std.specs.List.Sorted.{IsStrictlyIncreasing};
ghost use Rattle.act_rules.specs.declared.row.Note.{Note};
ghost use Rattle.act_rules.specs.Rows.{last_row};
ghost use Rattle.act_rules.specs.Tallies.{StandsFor};
ghost use Rattle.fix_site.specs.declared.action.Action.{Action};
ghost use Rattle.agent_text.specs.Histories.{AreHistories, PlainHistory, rows_at, with_ended};
ghost use Rattle.agent_attempt.specs.ReadBlocks.{shown_block};
ghost use Rattle.agent_attempt.specs.ActionContents.{as_action};
ghost use Rattle.agent_state.specs.Lookups.{AllStand, FindsTally, PlacesTally, TalliesStand};

use act_rules::{Outcome, Rows, Tally};
use agent_attempt::ReadBlock;
use agent_text::Histories;
use std::alloc::{AllocError, Global};
use std::marker::Model;

/// The tally of an action.
#[derive(Clone, Copy)]
pub struct ActionTally {
    /// The id of the action.
    pub action: u64,
    /// The number of retries under which it stands.
    pub retries: u32,
    /// It stands for the rows of the action.
    pub tally: Tally,
}

/// The tallies of actions, in strictly ascending order of their ids. Contracts see the list of them.
#[derive(Drop)]
pub struct Tallies {
    list: Vec<ActionTally>,
}

impl Model for Tallies {
    ghost use Rattle.std.specs.Prelude.{List, map};
    ghost use Rattle.std.specs.List.Sorted.{IsStrictlyIncreasing};
    ghost use Rattle.agent_state.specs.declared.tallies.ActionTally.{ActionTally};

    ghost Value = { List ActionTally };

    ghost view = { λ t. t.list.items };

    ghost invariant = { λ t. IsStrictlyIncreasing (map (λ tally. tally.action) t.list.items) };
}

impl Tallies {
    /// No tally.
    pub fn new(alloc: Global) -> Tallies
        ensures { result ≡ [] }
    {
        Tallies {
            list: Vec::new(alloc),
        }
    }

    /// The tallies of these actions: those that stand already, and new ones for the others. The error is want of memory.
    pub fn of(
        alloc: Global,
        blocks: &[ReadBlock],
        histories: &Histories,
        old: &Tallies,
    ) -> Result<Tallies, AllocError>
        requires ascending { IsStrictlyIncreasing (map (λ action. action.id) (filter_map as_action (map shown_block blocks.now))) }
        requires stand { AllStand old.now histories.now }
        ensures { IfOk result (λ tallies. TalliesStand tallies (filter_map as_action (map shown_block blocks.now)) histories.now) }
    {
        let mut list = Vec::new(alloc);
        for block in blocks {
            let ReadBlock::Action(action) = block else {
                continue;
            };
            let id = action.action().id;
            let retries = action.action().rules.retries;
            let place = list.len();
            list.push(ActionTally {
                action: id,
                retries,
                tally: old.standing(alloc, id, retries, histories, place),
            })?;
        }
        Ok(Tallies { list })
    }

    /// A tally for the rows of this action under this number of retries. This place of the tallies and of the histories is looked at
    /// first, so that it is found at once where the action's stand there.
    pub fn standing(
        &self,
        alloc: Global,
        action: u64,
        retries: u32,
        histories: &Histories,
        place: usize,
    ) -> Tally
        requires { AllStand self.now histories.now }
        ensures { StandsFor result retries (rows_at action histories.now) }
    {
        if let Some(kept) = self.get_near(action, place)
            && kept.retries == retries
        {
            return kept.tally;
        }
        match histories.rows_near(action, place) {
            Some(rows) => Tally::of(retries, rows),
            None => Tally::of(retries, &Rows::new(alloc)),
        }
    }

    /// The tally of this action, if it has one.
    pub fn get(&self, action: u64) -> Option<&ActionTally>
        ensures { FindsTally action self.now result }
    {
        self.get_near(action, 0)
    }

    /// The tally of this action, if it has one. This place is looked at first.
    fn get_near(&self, action: u64, place: usize) -> Option<&ActionTally>
        ensures { FindsTally action self.now result }
    {
        match self.place_near(action, place) {
            Ok(place) => Some(&self.list[place]),
            Err(_) => None,
        }
    }

    /// The place of the tally of this action, or the one where it would stand. This place is looked at first.
    fn place_near(&self, action: u64, place: usize) -> Result<usize, usize>
        ensures { PlacesTally action self.now result }
    {
        if let Some(kept) = self.list.as_slice().get(place)
            && kept.action == action
        {
            return Ok(place);
        }
        self.place(action)
    }

    /// The place of the tally of this action, or the one where it would stand.
    fn place(&self, action: u64) -> Result<usize, usize>
        ensures { PlacesTally action self.now result }
    {
        self.list
            .as_slice()
            .binary_search_by(|tally| tally.action.cmp(&action))
    }

    /// The attempt of this action that runs has ended so.
    pub fn end(&mut self, action: u64, outcome: Outcome)
        ensures { (actions : List Action) (hs : List PlainHistory) (moment : ℤ) (note : Note) → AreHistories hs
            → IsSomeAnd (last_row (rows_at action hs)) (λ row. row.end ≡ None) → TalliesStand self.old actions hs
            → TalliesStand self.new actions (with_ended action moment outcome note hs) }
    {
        if let Ok(place) = self.place(action) {
            self.list[place].tally.end(outcome);
        }
    }
}
