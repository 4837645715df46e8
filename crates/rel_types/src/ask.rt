// What a part of a question is asked by the part around it.
ghost use Rattle.rel_lexer.specs.declared.operator.BinarySign.TheVariants.{Bar};
ghost use Rattle.rel_types.specs.Outcomes.{Answers, IsNotDefined};
ghost use Rattle.rel_types.specs.Plans.{first_kind};
ghost use Rattle.rel_types.specs.Typing.{ask_kind, ask_like, ask_singular, linked_kind, one_more, one_more_like};
ghost use Rattle.rel_types.specs.Views.{shown_node, shown_nodes};
ghost use Rattle.rel_value.specs.Views.{shown_kind};

use crate::alike::same_kind;
use crate::{Node, NodeList, TypeError};
use rel_lexer::{BinarySign, Place, Text};
use rel_value::{Kind, binary_kind};
use std::alloc::Global;

/// The node, which is singular.
#[tactic(auto, unfolding(crate::specs::Typing::ask_singular, crate::specs::Outcomes::Fails))]
pub(crate) fn ask_singular(span: Place, node: Node) -> Result<Node, TypeError>
    ensures { Answers shown_node (ask_singular span (shown_node node)) result }
{
    if node.plural {
        return Err(TypeError::NotSingular(span));
    }
    Ok(node)
}

/// The node, which has this kind.
#[tactic(auto, unfolding(crate::specs::Typing::ask_kind, crate::specs::Outcomes::Fails))]
pub(crate) fn ask_kind(kind: &Kind, span: Place, node: Node) -> Result<Node, TypeError>
    ensures { Answers shown_node (ask_kind (shown_kind kind.now) span (shown_node node)) result }
{
    if same_kind(kind, &node.kind) {
        Ok(node)
    } else {
        Err(TypeError::Incompatible(span))
    }
}

/// The node, which has the kind of the first of those before it.
#[tactic(auto, unfolding(crate::specs::Typing::ask_like, crate::specs::Outcomes::Fails))]
fn ask_like(before: &NodeList, span: Place, node: Node) -> Result<Node, TypeError>
    ensures { Answers shown_node (ask_like (first_kind (shown_nodes before.now)) span (shown_node node)) result }
{
    match before.first_kind() {
        Some(kind) => ask_kind(kind, span, node),
        None => Ok(node),
    }
}

/// The nodes with one more.
#[tactic(auto, unfolding(crate::specs::Outcomes::Fails))]
pub(crate) fn one_more(before: NodeList, node: Node) -> Result<NodeList, TypeError>
    ensures { Answers shown_nodes (one_more (shown_nodes before) (shown_node node)) result }
{
    let mut nodes = before;
    nodes.push(node)?;
    Ok(nodes)
}

/// The nodes with one more, which has the kind of the first of them.
#[tactic(auto, unfolding(crate::specs::Typing::one_more_like, crate::specs::Outcomes::after, crate::specs::Outcomes::Fails))]
pub(crate) fn one_more_like(
    before: NodeList,
    span: Place,
    node: Node,
) -> Result<NodeList, TypeError>
    ensures { Answers shown_nodes (one_more_like (shown_nodes before) span (shown_node node)) result }
{
    let node = ask_like(&before, span, node)?;
    let mut nodes = before;
    nodes.push(node)?;
    Ok(nodes)
}

/// The kind that a sign gives.
#[tactic(auto, unfolding(crate::specs::Typing::linked_kind, crate::specs::Outcomes::Fails, crate::specs::Outcomes::defined))]
pub(crate) fn linked_kind(
    alloc: Global,
    place: Place,
    sign: BinarySign,
    left: Kind,
    span: Place,
    right: &Node,
) -> Result<Kind, TypeError>
    ensures { Answers shown_kind (linked_kind place sign (shown_kind left) span (shown_node right.now)) result }
{
    match sign {
        BinarySign::Bar => shared_kind(left, span, right),
        _ => match binary_kind(sign, &left, &right.kind) {
            Some(kind) => Ok(kind),
            None => Err(not_defined(alloc, place, sign.words())),
        },
    }
}

/// The kind of both sides of `|`.
#[tactic(auto, unfolding(crate::specs::Typing::linked_kind, crate::specs::Outcomes::Fails))]
fn shared_kind(left: Kind, span: Place, right: &Node) -> Result<Kind, TypeError>
    ensures { Answers shown_kind (linked_kind span Bar (shown_kind left) span (shown_node right.now)) result }
{
    if same_kind(&left, &right.kind) {
        Ok(left)
    } else {
        Err(TypeError::Incompatible(span))
    }
}

/// The fault that nothing is defined of these words, or want of memory.
pub(crate) fn not_defined(alloc: Global, place: Place, words: &str) -> TypeError
    ensures { IsNotDefined place words.now result }
{
    match Text::from_str(alloc, words) {
        Ok(words) => TypeError::NotDefined(place, words),
        Err(_) => TypeError::Memory,
    }
}
