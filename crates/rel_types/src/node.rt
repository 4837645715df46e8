ghost use Rattle.std.specs.Prelude.{◌≡◌, IfOk};
ghost use Rattle.rel_types.specs.Plans.{held_kind, more_links, more_nodes, no_links, no_nodes};
ghost use Rattle.rel_types.specs.Views.{link_items, node_items, shown_held, shown_lent, shown_link, shown_links, shown_node, shown_nodes};

use crate::{CastSteps, Head};
use rel_lexer::{BinarySign, Place, Text, UnarySign};
use rel_value::Kind;
use std::alloc::{AllocError, Global};

/// A question, or a part of one, with the kind of the values that it gives.
#[cycle(node)]
#[derive(Drop)]
pub struct Node {
    pub kind: Kind,
    /// Whether it may give no value or several; else it gives one value or an error.
    pub plural: bool,
    pub form: Form,
}

/// What gives the values. The places are those of the question's tree.
#[cycle(node)]
#[derive(Drop)]
pub enum Form {
    Number {
        place: Place,
        number: i64,
    },
    Literal {
        place: Place,
        text: Text,
    },
    It {
        place: Place,
    },
    /// The argument is one value. In the filter `it` is the value of the head.
    Phrase {
        place: Place,
        head: Head,
        argument: Option<Box<Node>>,
        filter: Option<Box<Node>>,
        object: Option<Box<Node>>,
    },
    /// In the body `it` is the value of the object, if there is one, and in the filter that of the body.
    Body {
        place: Place,
        body: Box<Node>,
        filter: Option<Box<Node>>,
        object: Option<Box<Node>>,
    },
    Cast {
        first: Box<Node>,
        casts: CastSteps,
    },
    Unary {
        place: Place,
        sign: UnarySign,
        right: Box<Node>,
    },
    Chain {
        first: Box<Node>,
        rest: Links,
    },
    If {
        place: Place,
        test: Box<Node>,
        yes: Box<Node>,
        no: Box<Node>,
    },
    Tuple {
        parts: NodeList,
    },
    Collection {
        parts: NodeList,
    },
}

/// An operator, the place of its words, and its right operand.
#[cycle(node)]
#[derive(Drop)]
pub struct Link {
    pub place: Place,
    pub sign: BinarySign,
    pub right: Node,
}

/// Operators with their right operands, in their order.
#[cycle(node)]
#[derive(Drop)]
pub struct Links {
    pub(crate) items: Vec<Link>,
}

/// Nodes in their order.
#[cycle(node)]
#[derive(Drop)]
pub struct NodeList {
    pub(crate) items: Vec<Node>,
}

impl Links {
    /// Takes no memory.
    pub fn from_vec(links: Vec<Link>) -> Links
        ensures { link_items result ≡ links.items }
    {
        Links { items: links }
    }

    /// Takes no memory.
    pub fn into_vec(self) -> Vec<Link>
        ensures { result.items ≡ link_items self }
    {
        self.items
    }

    pub fn as_slice(&self) -> &[Link]
        ensures { result.now ≡ link_items self.now }
    {
        self.items.as_slice()
    }

    pub(crate) fn new(alloc: Global) -> Links
        ensures { shown_links result ≡ no_links }
    {
        Links {
            items: Vec::new(alloc),
        }
    }

    pub(crate) fn push(&mut self, link: Link) -> Result<(), AllocError>
        ensures { IfOk result (λ _. shown_links self.new
            ≡ more_links (shown_links self.old) (shown_link link).0 (shown_link link).1 (shown_link link).2) }
    {
        self.items.push(link)?;
        Ok(())
    }
}

impl NodeList {
    /// Takes no memory.
    pub fn from_vec(nodes: Vec<Node>) -> NodeList
        ensures { node_items result ≡ nodes.items }
    {
        NodeList { items: nodes }
    }

    /// Takes no memory.
    pub fn into_vec(self) -> Vec<Node>
        ensures { result.items ≡ node_items self }
    {
        self.items
    }

    pub fn as_slice(&self) -> &[Node]
        ensures { result.now ≡ node_items self.now }
    {
        self.items.as_slice()
    }

    pub(crate) fn new(alloc: Global) -> NodeList
        ensures { shown_nodes result ≡ no_nodes }
    {
        NodeList {
            items: Vec::new(alloc),
        }
    }

    pub(crate) fn push(&mut self, node: Node) -> Result<(), AllocError>
        ensures { IfOk result (λ _. shown_nodes self.new ≡ more_nodes (shown_nodes self.old) (shown_node node)) }
    {
        self.items.push(node)?;
        Ok(())
    }
}

/// The kind of an argument or an object, if there is one.
pub(crate) fn kind_held(held: &Option<Box<Node>>) -> Option<&Kind>
    ensures { shown_lent result ≡ held_kind (shown_held held.now) }
{
    match held {
        Some(node) => Some(&node.kind),
        None => None,
    }
}
