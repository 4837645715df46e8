ghost use Rattle.std.specs.Prelude.{◌≡◌, IfOk};
ghost use Rattle.rel_grammar.specs.Trees.{more_links, more_parts, no_links, no_parts};
ghost use Rattle.rel_grammar.specs.Views.{link_items, shown, shown_link, shown_links, shown_parts, tree_items};

use crate::CastList;
use rel_lexer::{BinarySign, Place, Text, UnarySign};
use std::alloc::{AllocError, Global};

/// A question, or a part of one. A place counts the bytes of the question's text.
#[cycle(tree)]
#[derive(Drop)]
pub enum Tree {
    /// From 0 on.
    Number {
        place: Place,
        number: i64,
    },
    /// A string.
    Literal {
        place: Place,
        text: Text,
    },
    It {
        place: Place,
    },
    /// A name, of words joined by one space, with the value that follows them, the filter after `whose` and the
    /// object after `of`. The place goes from its first word to the end of the argument.
    Phrase {
        place: Place,
        words: Text,
        argument: Option<Box<Tree>>,
        filter: Option<Box<Tree>>,
        object: Option<Box<Tree>>,
    },
    /// A part in brackets, which its place includes; or a number, string or `it` with a filter or an object, whose
    /// place it has.
    Body {
        place: Place,
        body: Box<Tree>,
        filter: Option<Box<Tree>>,
        object: Option<Box<Tree>>,
    },
    /// One cast or more, done from the left.
    Cast {
        first: Box<Tree>,
        casts: CastList,
    },
    /// The place is that of the sign.
    Unary {
        place: Place,
        sign: UnarySign,
        right: Box<Tree>,
    },
    /// One operator or more of one level, read from the left.
    Chain {
        first: Box<Tree>,
        rest: LinkList,
    },
    /// The place is that of the word `if`.
    If {
        place: Place,
        test: Box<Tree>,
        yes: Box<Tree>,
        no: Box<Tree>,
    },
    /// Two parts or more, with commas between them.
    Tuple {
        parts: TreeList,
    },
    /// Two parts or more, with semicolons between them.
    Collection {
        parts: TreeList,
    },
}

/// An operator, the place of its words, and its right operand.
#[cycle(tree)]
#[derive(Drop)]
pub struct Link2 {
    pub place: Place,
    pub sign: BinarySign,
    pub right: Tree,
}

/// Operators with their right operands, in their order.
#[cycle(tree)]
#[derive(Drop)]
pub struct LinkList {
    pub(crate) items: Vec<Link2>,
}

/// Trees in their order.
#[cycle(tree)]
#[derive(Drop)]
pub struct TreeList {
    pub(crate) items: Vec<Tree>,
}

impl LinkList {
    /// Takes no memory.
    pub fn from_vec(links: Vec<Link2>) -> LinkList
        ensures { link_items result ≡ links.items }
    {
        LinkList { items: links }
    }

    /// Takes no memory.
    pub fn into_vec(self) -> Vec<Link2>
        ensures { result.items ≡ link_items self }
    {
        self.items
    }

    pub fn as_slice(&self) -> &[Link2]
        ensures { result.now ≡ link_items self.now }
    {
        self.items.as_slice()
    }

    pub(crate) fn new(alloc: Global) -> LinkList
        ensures { shown_links result ≡ no_links }
    {
        LinkList {
            items: Vec::new(alloc),
        }
    }

    pub(crate) fn push(&mut self, link: Link2) -> Result<(), AllocError>
        ensures { IfOk result (λ _. shown_links self.new
            ≡ more_links (shown_links self.old) (shown_link link).0 (shown_link link).1 (shown_link link).2) }
    {
        self.items.push(link)?;
        Ok(())
    }
}

impl TreeList {
    /// Takes no memory.
    pub fn from_vec(trees: Vec<Tree>) -> TreeList
        ensures { tree_items result ≡ trees.items }
    {
        TreeList { items: trees }
    }

    /// Takes no memory.
    pub fn into_vec(self) -> Vec<Tree>
        ensures { result.items ≡ tree_items self }
    {
        self.items
    }

    pub fn as_slice(&self) -> &[Tree]
        ensures { result.now ≡ tree_items self.now }
    {
        self.items.as_slice()
    }

    pub(crate) fn new(alloc: Global) -> TreeList
        ensures { shown_parts result ≡ no_parts }
    {
        TreeList {
            items: Vec::new(alloc),
        }
    }

    pub(crate) fn push(&mut self, tree: Tree) -> Result<(), AllocError>
        ensures { IfOk result (λ _. shown_parts self.new ≡ more_parts (shown_parts self.old) (shown tree)) }
    {
        self.items.push(tree)?;
        Ok(())
    }
}
