// The kinds of parts, or the faults that there are none.
ghost use Rattle.std.specs.Prelude.{◌≡◌, codes, option_map};
ghost use Rattle.rel_types.specs.Heads.{head_of};
ghost use Rattle.rel_types.specs.Outcomes.{Answers, defined, fitting};
ghost use Rattle.rel_types.specs.Plans.{first_kind, kind_of, tuple_kind};
ghost use Rattle.rel_lexer.specs.OperatorWords.{unary_words};
ghost use Rattle.rel_types.specs.Signs.{denied_kind, unary_kind};
ghost use Rattle.rel_types.specs.Tables.{shown_headed};
ghost use Rattle.rel_types.specs.Views.{shown_held, shown_lent, shown_node, shown_nodes};
ghost use Rattle.rel_value.specs.Kinds.{sort_of};
ghost use Rattle.rel_value.specs.Views.{shown_kind};

use crate::ask::not_defined;
use crate::naming::{Headed, head_of};
use crate::{Node, NodeList, TypeError};
use rel_lexer::{Place, UnarySign};
use rel_value::{Kind, negated_kind};
use std::alloc::Global;

/// The kind of `it`.
#[tactic(auto, unfolding(crate::specs::Outcomes::defined, crate::specs::Outcomes::Fails), using(crate::proofs::Steps::no_memory))]
pub(crate) fn it_kind(alloc: Global, place: Place, it: Option<&Kind>) -> Result<Kind, TypeError>
    ensures { Answers shown_kind (defined place (codes "it") (shown_lent it.entry)) result }
{
    match it {
        Some(kind) => Ok(kind.copy()?),
        None => Err(not_defined(alloc, place, "it")),
    }
}

/// What a name stands for.
#[tactic(auto, unfolding(crate::specs::Outcomes::defined, crate::specs::Outcomes::Fails), using(crate::proofs::Steps::no_memory))]
pub(crate) fn named(
    alloc: Global,
    place: Place,
    words: &str,
    argument: &Option<Box<Node>>,
    object: &Option<Box<Node>>,
) -> Result<Headed, TypeError>
    ensures { Answers shown_headed (defined place words.now (head_of words.now (shown_held argument.now) (shown_held object.now))) result }
{
    match head_of(words, argument, object)? {
        Some(headed) => Ok(headed),
        None => Err(not_defined(alloc, place, words)),
    }
}

/// The kind that a sign before its operand gives.
#[tactic(auto, unfolding(crate::specs::Outcomes::defined, crate::specs::Outcomes::Fails), using(crate::proofs::Steps::no_memory))]
pub(crate) fn signed_kind(
    alloc: Global,
    place: Place,
    sign: UnarySign,
    right: &Node,
) -> Result<Kind, TypeError>
    ensures { Answers shown_kind (defined place (unary_words sign) (unary_kind sign (kind_of (shown_node right.now)))) result }
{
    match unary_kind(sign, &right.kind) {
        Some(kind) => Ok(kind),
        None => Err(not_defined(alloc, place, sign.words())),
    }
}

/// The kind that a sign before an operand gives, if it has a row for it.
fn unary_kind(sign: UnarySign, right: &Kind) -> Option<Kind>
    ensures { option_map shown_kind result ≡ unary_kind sign (shown_kind right.now) }
{
    match sign {
        UnarySign::Not => denied_kind(right),
        UnarySign::Exists => Some(Kind::Boolean),
        UnarySign::Exist => Some(Kind::Boolean),
        UnarySign::Minus => negated_kind(right),
    }
}

fn denied_kind(right: &Kind) -> Option<Kind>
    ensures { option_map shown_kind result ≡ denied_kind (sort_of (shown_kind right.now)) }
{
    match right {
        Kind::Boolean => Some(Kind::Boolean),
        _ => None,
    }
}

/// The kind of the tuple of these parts.
#[tactic(auto, unfolding(crate::specs::Outcomes::fitting, crate::specs::Outcomes::Fails), using(crate::proofs::Steps::no_memory))]
pub(crate) fn tuple_kind(alloc: Global, span: Place, parts: &NodeList) -> Result<Kind, TypeError>
    ensures { Answers shown_kind (fitting span (tuple_kind (shown_nodes parts.now))) result }
{
    match parts.tuple_kind(alloc)? {
        Some(kind) => Ok(kind),
        None => Err(TypeError::Incompatible(span)),
    }
}

/// The kind of the first part.
#[tactic(auto, unfolding(crate::specs::Outcomes::fitting, crate::specs::Outcomes::Fails), using(crate::proofs::Steps::no_memory))]
pub(crate) fn shared_kind(span: Place, parts: &NodeList) -> Result<Kind, TypeError>
    ensures { Answers shown_kind (fitting span (first_kind (shown_nodes parts.now))) result }
{
    match parts.first_kind() {
        Some(kind) => Ok(kind.copy()?),
        None => Err(TypeError::Incompatible(span)),
    }
}
