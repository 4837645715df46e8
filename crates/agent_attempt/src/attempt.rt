ghost use Rattle.std.specs.Prelude.{◌≡◌, ℕ, ◌+◌, ◌∷◌, ◌++◌, [], length, None, IfOk};
ghost use Rattle.desk_base.specs.Moments.{IsMoment};
ghost use Rattle.line_forms.specs.Numbers.{IsOffset};
ghost use Rattle.agent_attempt.specs.Attempts.{StageWaitsBelow, new_attempt, numbered};
ghost use Rattle.agent_attempt.specs.ActionContents.{fixlets_at, single};
ghost use Rattle.agent_attempt.specs.Relevance.{HasScript};
ghost use Rattle.fix_site.specs.declared.fixlet.Fixlet.{Fixlet};
ghost use Rattle.agent_attempt.specs.FoundContents.{shown_content};
ghost use Rattle.agent_attempt.specs.Stages.{IsStage, shown_attempt, shown_stage};
ghost use Rattle.agent_attempt.specs.Supplies.{Supplies};

use crate::read_block::{ReadAction, ReadBaseline};
use crate::read_fixlet::ReadFixlet;
use crate::read_site::{Content, ReadSite};
use crate::went::Fail;
use desk_base::Bytes;
use fix_site::Action;
use script_run::Run;
use std::alloc::{AllocError, Global};
use std::collections::VecDeque;
use std::marker::Model;

/// The most components that have positions.
const MOST_COMPONENTS: usize = 4_294_967_295;

/// A component that is run.
#[derive(Drop)]
pub struct Part {
    /// Its position, from 1, or 0 for a fixlet by itself.
    pub component: u32,
    pub fixlet: ReadFixlet,
}

/// The first failure of an attempt.
#[derive(Drop)]
pub struct Failure {
    pub fail: Fail,
    /// The exit code of the run in which it failed, if there was one.
    pub exit: Option<i64>,
}

/// How far the component at hand has come.
#[derive(Drop)]
pub enum Stage {
    /// It isn't known whether it is relevant.
    Coming,
    /// Its script has still to begin.
    Starting,
    /// Its script runs.
    Running(Run),
    /// Its script is done, with this exit code, and its success has still to be judged.
    Judging(Option<i64>),
}

/// An attempt of an action, with its content as it was when it began.
#[derive(Drop)]
pub struct Attempt {
    pub(crate) action: Action,
    /// The number of its row.
    pub(crate) row: u32,
    /// The offset of the turn in which it began.
    pub(crate) offset: i64,
    /// The component at hand, and those that come after it.
    pub(crate) left: VecDeque<Part>,
    pub(crate) stage: Stage,
    pub(crate) failure: Option<Failure>,
    /// The exit code of the last component that was run and succeeded.
    pub(crate) exit: Option<i64>,
}

impl Model for Attempt {
    ghost use Rattle.agent_attempt.specs.Stages.{AttemptState, IsAttempt};
    ghost use Rattle.std.specs.Coded.{codes};
    ghost use Rattle.script_run.specs.contracts.run.Run as run;

    ghost Value = { AttemptState };

    ghost coded = { Prim.hlevel (codes, run.the_row.coded) };

    ghost view = { λ a. record {
      action = a.action;
      row = a.row;
      offset = a.offset;
      left = a.left.items;
      stage = a.stage;
      past = record { failure = a.failure; exit = a.exit };
    } };

    ghost invariant = { λ a. IsAttempt a.action a.offset a.left.items a.stage };
}

impl Attempt {
    /// An attempt at its beginning, in a turn at this offset: the row of the action with this number. A fixlet by itself was found
    /// relevant, so it has a script. The error is want of memory, here and below.
    pub fn begin(
        alloc: Global,
        action: &ReadAction,
        content: Content<'_>,
        row: u32,
        offset: i64,
    ) -> Result<Attempt, AllocError>
        requires offset { IsOffset offset }
        requires script { (fixlet : Fixlet) → shown_content content ≡ single fixlet → HasScript fixlet.script }
        ensures begun { IfOk result (λ attempt. shown_attempt attempt
            ≡ new_attempt action.now (shown_content content.entry) row offset) }
        ensures waits { IfOk result (λ attempt. (started : ℕ) → StageWaitsBelow started (shown_stage attempt.stage)) }
    {
        let own = action.copied()?;
        match content {
            Content::Fixlet(fixlet) => {
                let left = alone(alloc, fixlet)?;
                Ok(Attempt::of(own, row, offset, left, Stage::Starting))
            }
            Content::Baseline(of_site) => {
                let left = group(alloc, of_site.site, of_site.baseline)?;
                Ok(Attempt::of(own, row, offset, left, Stage::Coming))
            }
        }
    }

    /// An attempt of these components, the first of which stands at this stage.
    fn of(action: Action, row: u32, offset: i64, left: VecDeque<Part>, stage: Stage) -> Attempt
        requires moment { IsMoment action.issued }
        requires offset { IsOffset offset }
        requires stage { IsStage left.items stage }
        ensures { result ≡ record {
          action = action;
          row = row;
          offset = offset;
          left = left.items;
          stage = stage;
          past = record { failure = None; exit = None };
        } }
    {
        Attempt {
            action,
            row,
            offset,
            left,
            stage,
            failure: None,
            exit: None,
        }
    }

    /// The id of its action.
    pub fn action_id(&self) -> u64
        ensures { result ≡ self.now.action.id }
    {
        self.action.id
    }

    /// The number of its row.
    pub fn row(&self) -> u32
        ensures { result ≡ self.now.row }
    {
        self.row
    }

    /// Takes what came for the file of a digest, its SHA-256: its bytes, or None where it isn't served. It is false where the last
    /// answer didn't want that file, or it came already. It takes no memory.
    pub fn supply(&mut self, digest: &[u8; 32], bytes: Option<Bytes>) -> bool
        ensures supplies { Supplies (shown_attempt self.old) digest.now bytes result (shown_attempt self.new) }
        ensures waits { (started : ℕ) → StageWaitsBelow started (shown_stage self.old.stage)
            → StageWaitsBelow started (shown_stage self.new.stage) }
    {
        if let Stage::Running(run) = &mut self.stage {
            return run.supply(digest, bytes);
        }
        false
    }
}

/// A fixlet by itself as the only component.
fn alone(alloc: Global, fixlet: &ReadFixlet) -> Result<VecDeque<Part>, AllocError>
    ensures { IfOk result (λ parts. parts.items ≡ record { component = 0; fixlet = fixlet.now } ∷ []) }
{
    let mut parts = VecDeque::new(alloc);
    parts.push_back(Part {
        component: 0,
        fixlet: fixlet.copy()?,
    })?;
    Ok(parts)
}

/// The components of a baseline.
fn group(
    alloc: Global,
    site: &ReadSite,
    baseline: &ReadBaseline,
) -> Result<VecDeque<Part>, AllocError>
    ensures { IfOk result (λ parts. parts.items ≡ numbered 1 (fixlets_at baseline.now.components site.now.blocks)) }
{
    let mut parts = VecDeque::new(alloc);
    for id in baseline.components() {
        add_part(&mut parts, site, *id)?;
    }
    Ok(parts)
}

/// Adds the fixlet of this id, if there is one, as the next component.
fn add_part(parts: &mut VecDeque<Part>, site: &ReadSite, id: u64) -> Result<(), AllocError>
    ensures { IfOk result (λ _. parts.new.items
        ≡ parts.old.items ++ numbered (length parts.old.items + 1) (fixlets_at (id ∷ []) site.now.blocks)) }
{
    match site.fixlet(id) {
        Some(fixlet) => {
            let component = position_behind(parts.len())?;
            let fixlet = fixlet.copy()?;
            parts.push_back(Part { component, fixlet })?;
            Ok(())
        }
        None => Ok(()),
    }
}

/// The position of the component behind so many.
fn position_behind(before: usize) -> Result<u32, AllocError>
    ensures { IfOk result (λ position. position ≡ before + 1) }
{
    if before >= MOST_COMPONENTS {
        return Err(AllocError);
    }
    Ok(before as u32 + 1)
}
