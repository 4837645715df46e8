ghost use Rattle.rel_types.specs.Outcomes.{Answers};
ghost use Rattle.rel_types.specs.Tables.{shown_chained};
ghost use Rattle.rel_types.specs.Typing.{one_more_link};
ghost use Rattle.rel_types.specs.Views.{shown_node};

use crate::ask::linked_kind;
use crate::{Link, Links, Node, TypeError};
use rel_lexer::{BinarySign, Place};
use rel_value::Kind;
use std::alloc::Global;

/// The operands of a chain behind the first, each with its sign, and the kind that the last sign gives.
#[derive(Drop)]
pub(crate) struct Chained {
    pub(crate) kind: Kind,
    pub(crate) links: Links,
}

/// The chain with one operand more.
#[tactic(auto, unfolding(crate::specs::Typing::one_more_link, crate::specs::Outcomes::after, crate::specs::Outcomes::Fails))]
pub(crate) fn one_more_link(
    alloc: Global,
    before: Chained,
    place: Place,
    sign: BinarySign,
    span: Place,
    right: Node,
) -> Result<Chained, TypeError>
    ensures { Answers shown_chained (one_more_link (shown_chained before) place sign span (shown_node right)) result }
{
    let mut links = before.links;
    let kind = linked_kind(alloc, place, sign, before.kind, span, &right)?;
    links.push(Link { place, sign, right })?;
    Ok(Chained { kind, links })
}
