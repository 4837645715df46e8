// The same tree once more. What it takes is from the memory that the tree is in.
ghost use Rattle.std.specs.Prelude.{◌≡◌, IfOk};
ghost use Rattle.rel_grammar.specs.Holding.{shown_held};
ghost use Rattle.rel_grammar.specs.Views.{shown, shown_link, shown_links, shown_parts};

use crate::{Link2, LinkList, Tree, TreeList};
use std::alloc::AllocError;

impl Tree {
    /// The same tree once more.
    #[cycle(copy)]
    pub fn copy(&self) -> Result<Tree, AllocError>
        ensures { IfOk result (λ tree. shown tree ≡ shown self.now) }
    {
        match self {
            Tree::Number { place, number } => Ok(Tree::Number {
                place: *place,
                number: *number,
            }),
            Tree::Literal { place, text } => Ok(Tree::Literal {
                place: *place,
                text: text.copy()?,
            }),
            Tree::It { place } => Ok(Tree::It { place: *place }),
            Tree::Phrase {
                place,
                words,
                argument,
                filter,
                object,
            } => Ok(Tree::Phrase {
                place: *place,
                words: words.copy()?,
                argument: copy_held(argument)?,
                filter: copy_held(filter)?,
                object: copy_held(object)?,
            }),
            Tree::Body {
                place,
                body,
                filter,
                object,
            } => Ok(Tree::Body {
                place: *place,
                body: copy_box(body)?,
                filter: copy_held(filter)?,
                object: copy_held(object)?,
            }),
            Tree::Cast { first, casts } => Ok(Tree::Cast {
                first: copy_box(first)?,
                casts: casts.copy()?,
            }),
            Tree::Unary { place, sign, right } => Ok(Tree::Unary {
                place: *place,
                sign: *sign,
                right: copy_box(right)?,
            }),
            Tree::Chain { first, rest } => Ok(Tree::Chain {
                first: copy_box(first)?,
                rest: rest.copy()?,
            }),
            Tree::If {
                place,
                test,
                yes,
                no,
            } => Ok(Tree::If {
                place: *place,
                test: copy_box(test)?,
                yes: copy_box(yes)?,
                no: copy_box(no)?,
            }),
            Tree::Tuple { parts } => Ok(Tree::Tuple {
                parts: parts.copy()?,
            }),
            Tree::Collection { parts } => Ok(Tree::Collection {
                parts: parts.copy()?,
            }),
        }
    }
}

#[cycle(copy)]
fn copy_box(tree: &Box<Tree>) -> Result<Box<Tree>, AllocError>
    ensures { IfOk result (λ copied. shown copied.value ≡ shown tree.now.value) }
{
    Ok(Box::new(*Box::allocator(tree), tree.copy()?)?)
}

#[cycle(copy)]
fn copy_held(held: &Option<Box<Tree>>) -> Result<Option<Box<Tree>>, AllocError>
    ensures { IfOk result (λ copied. shown_held copied ≡ shown_held held.now) }
{
    match held {
        Some(tree) => Ok(Some(Box::new(*Box::allocator(tree), tree.copy()?)?)),
        None => Ok(None),
    }
}

impl Link2 {
    /// The same link once more.
    #[cycle(copy)]
    pub fn copy(&self) -> Result<Link2, AllocError>
        ensures { IfOk result (λ link. shown_link link ≡ shown_link self.now) }
    {
        Ok(Link2 {
            place: self.place,
            sign: self.sign,
            right: self.right.copy()?,
        })
    }
}

impl LinkList {
    /// The same links once more.
    #[cycle(copy)]
    pub fn copy(&self) -> Result<LinkList, AllocError>
        ensures { IfOk result (λ links. shown_links links ≡ shown_links self.now) }
    {
        let mut copies = LinkList::new(*self.items.allocator());
        for link in &self.items {
            copies.push(link.copy()?)?;
        }
        Ok(copies)
    }
}

impl TreeList {
    /// The same trees once more.
    #[cycle(copy)]
    pub fn copy(&self) -> Result<TreeList, AllocError>
        ensures { IfOk result (λ trees. shown_parts trees ≡ shown_parts self.now) }
    {
        let mut copies = TreeList::new(*self.items.allocator());
        for tree in &self.items {
            copies.push(tree.copy()?)?;
        }
        Ok(copies)
    }
}
