// What nodes in a list have together.
ghost use Rattle.std.specs.Prelude.{◌≡◌, IfOk, map, option_map};
ghost use Rattle.std.specs.List.{list_any};
ghost use Rattle.rel_types.specs.Plans.{any_plural, first_kind, is_plural, kind_of, tuple_kind};
ghost use Rattle.rel_types.specs.Views.{shown_lent, shown_node, shown_nodes};
ghost use Rattle.rel_value.specs.Plain.{tuples};
ghost use Rattle.rel_value.specs.Views.{kinded, shown_kind, shown_kinds};

use crate::{Node, NodeList};
use rel_value::{Kind, Kinds};
use std::alloc::{AllocError, Global};

impl NodeList {
    /// The kind of the first node.
    pub(crate) fn first_kind(&self) -> Option<&Kind>
        ensures { shown_lent result ≡ first_kind (shown_nodes self.now) }
    {
        match self.items.as_slice() {
            [first, ..] => Some(&first.kind),
            [] => None,
        }
    }

    /// Whether one of the nodes is plural.
    pub(crate) fn any_plural(&self) -> bool
        ensures { result ≡ any_plural (shown_nodes self.now) }
    {
        any_plural(self.items.as_slice())
    }

    /// The kind of the tuple of these nodes, if they are two or more.
    pub(crate) fn tuple_kind(&self, alloc: Global) -> Result<Option<Kind>, AllocError>
        ensures { IfOk result (λ o. option_map shown_kind o ≡ tuple_kind (shown_nodes self.now)) }
    {
        match self.items.as_slice() {
            [first, second, rest @ ..] => {
                let kinds = Kinds::pair(alloc, first.kind.copy()?, second.kind.copy()?)?;
                Ok(Some(tuple_of(with_kinds(kinds, rest)?)))
            }
            _ => Ok(None),
        }
    }
}

fn any_plural(nodes: &[Node]) -> bool
    ensures { result ≡ list_any (λ n. is_plural (shown_node n)) nodes.now }
{
    nodes.iter().any(|node| is_plural(node))
}

/// The kinds with those of more nodes.
fn with_kinds(kinds: Kinds, nodes: &[Node]) -> Result<Kinds, AllocError>
    ensures { IfOk result (λ ks. shown_kinds ks ≡ kinded (shown_kinds kinds) (map (λ n. kind_of (shown_node n)) nodes.now)) }
{
    let mut kinds = kinds;
    for node in nodes {
        kinds.push(node.kind.copy()?)?;
    }
    Ok(kinds)
}

fn tuple_of(kinds: Kinds) -> Kind
    ensures { shown_kind result ≡ tuples (shown_kinds kinds) }
{
    Kind::Tuple(kinds)
}

fn is_plural(node: &Node) -> bool
    ensures { result ≡ is_plural (shown_node node.now) }
{
    node.plural
}
