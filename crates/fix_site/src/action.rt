ghost use Rattle.std.specs.Prelude.{◌≡◌, IfOk};

use crate::texts::Texts;
use act_rules::Rules;
use rel_lexer::Text;
use std::alloc::AllocError;

/// The computers on which an action is to run.
#[derive(Drop)]
pub enum Target {
    All,
    /// Those of these names, one or more.
    Computers(Texts),
    /// Those on which this question is true.
    Where(Text),
}

/// The order to run a fixlet or a baseline.
#[derive(Drop)]
pub struct Action {
    /// From 1 to 2^53.
    pub id: u64,
    /// The moment at which it was issued, in seconds since 1970-01-01 00:00:00 UTC, from 0 to 2^37.
    pub issued: i64,
    /// The name of the site of its content.
    pub site: Text,
    /// The id of its content in that site, from 1 to 2^53.
    pub content: u64,
    /// Whether all components of a baseline are run. Otherwise it ends with the first that fails.
    pub all_members: bool,
    pub target: Target,
    pub rules: Rules,
    /// Whether it begins no more runs.
    pub stopped: bool,
}

impl Target {
    /// The same target once more.
    pub fn copy(&self) -> Result<Target, AllocError>
        ensures { IfOk result (λ target. target ≡ self.now) }
    {
        match self {
            Target::All => Ok(Target::All),
            Target::Computers(names) => Ok(Target::Computers(names.copy()?)),
            Target::Where(question) => Ok(Target::Where(question.copy()?)),
        }
    }
}

impl Action {
    /// The same action once more.
    pub fn copy(&self) -> Result<Action, AllocError>
        ensures { IfOk result (λ action. action ≡ self.now) }
    {
        Ok(Action {
            id: self.id,
            issued: self.issued,
            site: self.site.copy()?,
            content: self.content,
            all_members: self.all_members,
            target: self.target.copy()?,
            rules: self.rules,
            stopped: self.stopped,
        })
    }
}
