ghost use Rattle.std.specs.Prelude.{◌≡◌, IfOk, IsTrue, ◌↔◌, Contains};
ghost use Rattle.desk_base.specs.Moments.{IsMoment};
ghost use Rattle.fix_site.specs.Actions.{IsAction};
ghost use Rattle.agent_attempt.specs.ReadTexts.{target_clause};
ghost use Rattle.agent_attempt.specs.AskedBlocks.{IsAsked};
ghost use Rattle.agent_attempt.specs.ReadBlocks.{shown_block, read_id};
ghost use Rattle.agent_attempt.specs.FoundContents.{IsFixletOf};
ghost use Rattle.agent_attempt.specs.Relevance.{AllAre, Targets};

use crate::asked_block::AskedBlock;
use crate::clause::{Clause, ask_all, ask_given};
use crate::clauses::Clauses;
use crate::found::Found;
use crate::read_fixlet::ReadFixlet;
use crate::time::Time;
use bf_machine::Machine;
use fix_site::{Action, Baseline, Block, Target};
use rel_lexer::Text;
use std::alloc::{AllocError, Global};
use std::marker::Model;

/// A baseline, and what its relevance reads as.
#[derive(Drop)]
pub struct BaselineTexts {
    baseline: Baseline,
    relevance: Clauses,
}

/// A baseline whose clauses were read once. Contracts see the baseline.
#[derive(Drop)]
pub struct ReadBaseline {
    // Blocks are small, so that those of a site lie close together.
    texts: Box<BaselineTexts>,
}

impl Model for ReadBaseline {
    ghost use Rattle.std.specs.Prelude.{◌≡◌};
    ghost use Rattle.fix_site.specs.declared.baseline.Baseline.{Baseline};

    ghost Value = { Baseline };

    ghost view = { λ b. b.texts.value.baseline };

    ghost invariant = { λ b. b.texts.value.relevance ≡ b.texts.value.baseline.relevance };
}

impl ReadBaseline {
    /// A baseline whose relevance was read.
    fn new(
        alloc: Global,
        baseline: Baseline,
        relevance: Clauses,
    ) -> Result<ReadBaseline, AllocError>
        requires { relevance ≡ baseline.relevance }
        ensures { IfOk result (λ read. read ≡ baseline) }
    {
        let texts = BaselineTexts {
            baseline,
            relevance,
        };
        Ok(ReadBaseline {
            texts: Box::new(alloc, texts)?,
        })
    }

    /// Its id.
    pub(crate) fn id(&self) -> u64
        ensures { result ≡ self.now.id }
    {
        self.texts.baseline.id
    }

    /// The ids of its components.
    pub(crate) fn components(&self) -> &[u64]
        ensures { result.now ≡ self.now.components }
    {
        self.texts.baseline.components.as_slice()
    }

    /// Asks its own clauses.
    pub(crate) fn ask<M: Machine>(&self, alloc: Global, machine: &mut M, time: &Time) -> Found
        ensures { AllAre time.now self.now.relevance (M.told machine.old) result (M.told machine.new) }
    {
        ask_all(alloc, self.texts.relevance.as_slice(), machine, time)
    }
}

/// An action, and what its target reads as.
#[derive(Drop)]
pub struct ActionTexts {
    action: Action,
    target: Option<Clause>,
}

/// An action whose target was read once. Contracts see the action.
#[derive(Drop)]
pub struct ReadAction {
    texts: Box<ActionTexts>,
}

impl Model for ReadAction {
    ghost use Rattle.std.specs.Prelude.{◌≡◌};
    ghost use Rattle.fix_site.specs.declared.action.Action.{Action};
    ghost use Rattle.fix_site.specs.Actions.{IsAction};
    ghost use Rattle.agent_attempt.specs.ReadTexts.{target_clause};

    ghost Value = { Action };

    ghost view = { λ a. a.texts.value.action };

    ghost invariant = { λ a. IsAction a.texts.value.action
        × (a.texts.value.target ≡ target_clause a.texts.value.action.target) };
}

impl ReadAction {
    fn read(alloc: Global, action: Action) -> Result<ReadAction, AllocError>
        requires { IsAction action }
        ensures { IfOk result (λ read. read ≡ action) }
    {
        let texts = ActionTexts {
            target: read_target(alloc, &action.target)?,
            action,
        };
        Ok(ReadAction {
            texts: Box::new(alloc, texts)?,
        })
    }

    /// The action.
    pub fn action(&self) -> &Action
        ensures { result.now ≡ self.now }
    {
        &self.texts.action
    }

    /// A copy of the action.
    pub(crate) fn copied(&self) -> Result<Action, AllocError>
        ensures { IfOk result (λ action. (action ≡ self.now) × IsMoment action.issued) }
    {
        self.texts.action.copy()
    }

    /// Whether the action targets this computer.
    pub(crate) fn targets<M: Machine>(
        &self,
        alloc: Global,
        computer: &Text,
        machine: &mut M,
        time: &Time,
    ) -> Found
        ensures { Targets time.now computer.now self.now.target (M.told machine.old) result (M.told machine.new) }
    {
        let texts = &*self.texts;
        ask_target(
            alloc,
            &texts.action.target,
            &texts.target,
            computer,
            machine,
            time,
        )
    }
}

/// Whether a target, whose question was read, is this computer.
fn ask_target<M: Machine>(
    alloc: Global,
    target: &Target,
    clause: &Option<Clause>,
    computer: &Text,
    machine: &mut M,
    time: &Time,
) -> Found
    requires { clause.now ≡ target_clause target.now }
    ensures { Targets time.now computer.now target.now (M.told machine.old) result (M.told machine.new) }
{
    match target {
        Target::All => Found::Yes,
        Target::Computers(names) => {
            if is_among(names.as_slice(), computer) {
                Found::Yes
            } else {
                Found::No
            }
        }
        Target::Where(_) => ask_given(alloc, clause, machine, time),
    }
}

/// Reads the question of a target, if it has one.
fn read_target(alloc: Global, target: &Target) -> Result<Option<Clause>, AllocError>
    ensures { IfOk result (λ clause. clause ≡ target_clause target.now) }
{
    match target {
        Target::All | Target::Computers(_) => Ok(None),
        Target::Where(question) => Ok(Some(Clause::read(alloc, question)?)),
    }
}

fn is_among(names: &[Text], name: &Text) -> bool
    ensures { IsTrue result ↔ Contains names.now name.now }
{
    names.iter().any(|other| other.as_str() == name.as_str())
}

/// A block of a site whose texts were read once.
#[derive(Drop)]
pub enum ReadBlock {
    Fixlet(ReadFixlet),
    Baseline(ReadBaseline),
    Action(ReadAction),
}

impl ReadBlock {
    /// Reads the texts of a block whose relevance was read. The error is want of memory.
    pub(crate) fn read(alloc: Global, asked: AskedBlock) -> Result<ReadBlock, AllocError>
        requires { IsAsked asked }
        ensures { IfOk result (λ read. shown_block read ≡ asked.block) }
    {
        let AskedBlock { block, relevance } = asked;
        match block {
            Block::Fixlet(fixlet) => {
                Ok(ReadBlock::Fixlet(ReadFixlet::read(alloc, fixlet, relevance)?))
            }
            Block::Baseline(baseline) => {
                Ok(ReadBlock::Baseline(ReadBaseline::new(alloc, baseline, relevance)?))
            }
            Block::Action(action) => Ok(ReadBlock::Action(ReadAction::read(alloc, action)?)),
        }
    }

    /// Its id.
    pub(crate) fn id(&self) -> u64
        ensures { result ≡ read_id self.now }
    {
        match self {
            ReadBlock::Fixlet(fixlet) => fixlet.id(),
            ReadBlock::Baseline(baseline) => baseline.id(),
            ReadBlock::Action(action) => action.action().id,
        }
    }

    /// The fixlet that it is, if it is one.
    pub(crate) fn as_fixlet(&self) -> Option<&ReadFixlet>
        ensures { IsFixletOf (shown_block self.now) result }
    {
        match self {
            ReadBlock::Fixlet(fixlet) => Some(fixlet),
            _ => None,
        }
    }
}
