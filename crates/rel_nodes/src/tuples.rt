// Tuples, put together in halves: the parts of the one are put behind those of the other together, so that a part is copied once for
// each halving, and not for each part behind it.
ghost use Rattle.std.specs.Prelude.{◌≡◌, ◌<◌, ◌≤◌, IfOk, OnOk, drop, length, take};
ghost use Rattle.std.specs.Vec.Iter.{into_iter_items};
ghost use Rattle.rel_trace.specs.declared.joining.Joining.TheVariants.{Append, Pair, Push};
ghost use Rattle.rel_nodes.specs.Nodes.{boxed_shape};
ghost use Rattle.rel_nodes.specs.Tuples.{AreLeftless, GivesTuples, IsCommaOf, IsTupleOf};

use crate::Node;
use crate::make::{on_heap, with_one, with_two};
use rel_lexer::Place;
use rel_trace::{Joining, One, Two};
use std::alloc::{AllocError, Global};
use std::vec::IntoIter;

/// A part of a tuple, or the tuple of some neighbouring parts, with the span of the last.
#[derive(Drop)]
pub(crate) struct Section {
    pub(crate) node: Box<Node>,
    pub(crate) last: Place,
}

/// The tuples of these parts. The value of a part alone is its tuple.
pub(crate) fn tuple_of(alloc: Global, parts: Vec<Section>) -> Result<Box<Node>, AllocError>
    requires { AreLeftless parts.items }
    ensures { IfOk result (λ node. GivesTuples (boxed_shape node) parts.items) }
{
    let count = parts.len();
    if count == 0 {
        return on_heap(alloc, Node::Nothing);
    }
    let mut rest = parts.into_iter();
    let whole = together(alloc, &mut rest, count)?;
    Ok(whole.node)
}

/// The next so many parts as one, each half of them put together first. The first half is no shorter.
fn together(
    alloc: Global,
    parts: &mut IntoIter<Section>,
    count: usize,
) -> Result<Section, AllocError>
    requires some { 0 < count }
    requires enough { count ≤ length (into_iter_items parts.old) }
    requires leftless { AreLeftless (into_iter_items parts.old) }
    ensures whole { IfOk result (λ whole. IsTupleOf whole (take count (into_iter_items parts.old))) }
    ensures rest { OnOk result (into_iter_items parts.new ≡ drop count (into_iter_items parts.old)) }
{
    if count == 1 {
        return match parts.next() {
            Some(part) => Ok(part),
            None => unreachable!(),
        };
    }
    let later = count / 2;
    let earlier = count - later;
    let first = together(alloc, parts, earlier)?;
    let second = together(alloc, parts, later)?;
    joined(alloc, joining(earlier, later), first, second)
}

/// How so many parts, or their tuple, join so many before them.
fn joining(earlier: usize, later: usize) -> Joining
    ensures pair { earlier ≤ 1 → later ≤ 1 → result ≡ Pair }
    ensures push { 1 < earlier → later ≤ 1 → result ≡ Push }
    ensures append { 1 < later → result ≡ Append }
{
    if later > 1 {
        Joining::Append
    } else if earlier > 1 {
        Joining::Push
    } else {
        Joining::Pair
    }
}

/// The tuples of two neighbouring sections, with a turn at the span of the part before the second.
fn joined(
    alloc: Global,
    joining: Joining,
    first: Section,
    second: Section,
) -> Result<Section, AllocError>
    ensures { IfOk result (IsCommaOf joining first second) }
{
    let span = first.last;
    let last = second.last;
    let tuple = with_one(alloc, second.node, One::tuple(joining, span))?;
    let node = with_two(alloc, first.node, tuple, Two::turned(span))?;
    Ok(Section { node, last })
}
