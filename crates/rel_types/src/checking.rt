ghost use Rattle.std.specs.Prelude.{◌≡◌, None, Ok, MatchResult};
ghost use Rattle.rel_grammar.specs.Views.{shown};
ghost use Rattle.rel_types.specs.Outcomes.{Fails};
ghost use Rattle.rel_types.specs.Shown.{shown_plan};
ghost use Rattle.rel_types.specs.Typing.{typed};

use crate::typing::typed;
use crate::{Plan, TypeError};
use rel_grammar::Tree;
use std::alloc::Global;

/// The plan of a tree, or the first fault in the order of checking.
pub fn check(alloc: Global, tree: &Tree) -> Result<Plan, TypeError>
    ensures { MatchResult result (λ plan. typed None (shown tree.now)
        ≡ Ok (shown_plan plan)) (Fails (typed None (shown tree.now))) }
{
    let root = typed(alloc, None, tree)?;
    Ok(Plan { root })
}
