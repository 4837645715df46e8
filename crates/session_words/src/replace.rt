// Trees with the words of the tables replaced.
ghost use Rattle.std.specs.Prelude.{◌≡◌, IfOk, Some, pos};
ghost use Rattle.rel_grammar.specs.Holding.{shown_held};
ghost use Rattle.rel_grammar.specs.Trees.{numeral, phrase};
ghost use Rattle.rel_grammar.specs.Views.{shown, shown_link, shown_links, shown_parts};
ghost use Rattle.session_words.specs.Inside.{replaced_link, rewritten_phrase, shown_rewriting};
ghost use Rattle.session_words.specs.Replaced as becoming;
ghost use Rattle.session_words.specs.Replaced.{folder_at, replaced, replaced_held, replaced_links, replaced_parts, rewriting_of};

use crate::rewriting::{Rewriting, rewriting_of};
use rel_grammar::{Link2, LinkList, Tree, TreeList};
use rel_lexer::{Place, Text};
use std::alloc::{AllocError, Global};

/// A phrase by its parts.
#[derive(Drop)]
pub(crate) struct Phrase {
    place: Place,
    words: Text,
    argument: Option<Box<Tree>>,
    filter: Option<Box<Tree>>,
    object: Option<Box<Tree>>,
}

/// The tree in which each phrase of the words of the tables is replaced. The error is want of memory, here and below.
#[cycle(replace)]
pub fn replaced(alloc: Global, tree: &Tree) -> Result<Tree, AllocError>
    ensures { IfOk result (λ new. shown new ≡ replaced (shown tree.now)) }
{
    match tree {
        Tree::Number { place, number } => Ok(Tree::Number {
            place: *place,
            number: *number,
        }),
        Tree::Literal { place, text } => Ok(Tree::Literal {
            place: *place,
            text: text.copy()?,
        }),
        Tree::It { place } => Ok(Tree::It { place: *place }),
        Tree::Phrase {
            place,
            words,
            argument,
            filter,
            object,
        } => {
            let phrase = Phrase {
                place: *place,
                words: words.copy()?,
                argument: replaced_held(alloc, argument)?,
                filter: replaced_held(alloc, filter)?,
                object: replaced_held(alloc, object)?,
            };
            phrase.rewritten(alloc)
        }
        Tree::Body {
            place,
            body,
            filter,
            object,
        } => Ok(Tree::Body {
            place: *place,
            body: replaced_box(alloc, body)?,
            filter: replaced_held(alloc, filter)?,
            object: replaced_held(alloc, object)?,
        }),
        Tree::Cast { first, casts } => Ok(Tree::Cast {
            first: replaced_box(alloc, first)?,
            casts: casts.copy()?,
        }),
        Tree::Unary { place, sign, right } => Ok(Tree::Unary {
            place: *place,
            sign: *sign,
            right: replaced_box(alloc, right)?,
        }),
        Tree::Chain { first, rest } => Ok(Tree::Chain {
            first: replaced_box(alloc, first)?,
            rest: replaced_links(alloc, rest)?,
        }),
        Tree::If {
            place,
            test,
            yes,
            no,
        } => Ok(Tree::If {
            place: *place,
            test: replaced_box(alloc, test)?,
            yes: replaced_box(alloc, yes)?,
            no: replaced_box(alloc, no)?,
        }),
        Tree::Tuple { parts } => Ok(Tree::Tuple {
            parts: replaced_parts(alloc, parts)?,
        }),
        Tree::Collection { parts } => Ok(Tree::Collection {
            parts: replaced_parts(alloc, parts)?,
        }),
    }
}

#[cycle(replace)]
fn replaced_box(alloc: Global, tree: &Box<Tree>) -> Result<Box<Tree>, AllocError>
    ensures { IfOk result (λ new. shown new.value ≡ replaced (shown tree.now.value)) }
{
    Ok(Box::new(alloc, replaced(alloc, tree)?)?)
}

#[cycle(replace)]
fn replaced_held(alloc: Global, held: &Option<Box<Tree>>) -> Result<Option<Box<Tree>>, AllocError>
    ensures { IfOk result (λ new. shown_held new ≡ replaced_held (shown_held held.now)) }
{
    match held {
        Some(tree) => Ok(Some(Box::new(alloc, replaced(alloc, tree)?)?)),
        None => Ok(None),
    }
}

#[cycle(replace)]
fn replaced_links(alloc: Global, links: &LinkList) -> Result<LinkList, AllocError>
    ensures { IfOk result (λ new. shown_links new ≡ replaced_links (shown_links links.now)) }
{
    let mut copies = Vec::new(alloc);
    for link in links.as_slice() {
        copies.push(replaced_link(alloc, link)?)?;
    }
    Ok(LinkList::from_vec(copies))
}

#[cycle(replace)]
fn replaced_link(alloc: Global, link: &Link2) -> Result<Link2, AllocError>
    ensures { IfOk result (λ new. shown_link new ≡ replaced_link (shown_link link.now)) }
{
    Ok(Link2 {
        place: link.place,
        sign: link.sign,
        right: replaced(alloc, &link.right)?,
    })
}

#[cycle(replace)]
fn replaced_parts(alloc: Global, parts: &TreeList) -> Result<TreeList, AllocError>
    ensures { IfOk result (λ new. shown_parts new ≡ replaced_parts (shown_parts parts.now)) }
{
    let mut copies = Vec::new(alloc);
    for tree in parts.as_slice() {
        copies.push(replaced(alloc, tree)?)?;
    }
    Ok(TreeList::from_vec(copies))
}

impl Phrase {
    /// It, as what its words become.
    fn rewritten(self, alloc: Global) -> Result<Tree, AllocError>
        ensures { IfOk result (λ new. shown new ≡ rewritten_phrase self (rewriting_of self.words)) }
    {
        match rewriting_of(self.words.as_str()) {
            Some(rewriting) => self.rewritten_as(alloc, rewriting),
            None => Ok(self.into_tree()),
        }
    }

    /// It, where its words become this.
    fn rewritten_as(self, alloc: Global, rewriting: Rewriting) -> Result<Tree, AllocError>
        ensures { IfOk result (λ new. shown new ≡ rewritten_phrase self (Some (shown_rewriting rewriting))) }
    {
        match rewriting {
            Rewriting::InFolder { words, path } => self.in_folder(alloc, words, path),
            Rewriting::OverObject(words) => self.over_object(alloc, words),
            Rewriting::Numbered { words, number } => self.numbered(alloc, words, number),
        }
    }

    /// It with these words and of the folder at this path, where it has no object.
    fn in_folder(self, alloc: Global, words: &str, path: &str) -> Result<Tree, AllocError>
        ensures { IfOk result (λ new. shown new ≡ rewritten_phrase self (Some (becoming.in_folder words.now path.now))) }
    {
        if self.object.is_some() {
            return Ok(self.into_tree());
        }
        let folder = folder_at(alloc, self.place, path)?;
        Ok(Tree::Phrase {
            place: self.place,
            words: Text::from_str(alloc, words)?,
            argument: self.argument,
            filter: self.filter,
            object: Some(folder),
        })
    }

    /// It with these words, where it has an object.
    fn over_object(self, alloc: Global, words: &str) -> Result<Tree, AllocError>
        ensures { IfOk result (λ new. shown new ≡ rewritten_phrase self (Some (becoming.over_object words.now))) }
    {
        if self.object.is_none() {
            return Ok(self.into_tree());
        }
        Ok(Tree::Phrase {
            place: self.place,
            words: Text::from_str(alloc, words)?,
            argument: self.argument,
            filter: self.filter,
            object: self.object,
        })
    }

    /// It with these words and this number, where it has an object and no argument.
    fn numbered(self, alloc: Global, words: &str, number: u32) -> Result<Tree, AllocError>
        ensures { IfOk result (λ new. shown new ≡ rewritten_phrase self (Some (becoming.numbered words.now (pos number)))) }
    {
        if self.argument.is_some() {
            return Ok(self.into_tree());
        }
        if self.object.is_none() {
            return Ok(self.into_tree());
        }
        let argument = number_at(alloc, self.place, number)?;
        Ok(Tree::Phrase {
            place: self.place,
            words: Text::from_str(alloc, words)?,
            argument: Some(argument),
            filter: self.filter,
            object: self.object,
        })
    }

    /// It, as it is.
    fn into_tree(self) -> Tree
        ensures { shown result ≡ phrase self.place self.words (shown_held self.argument) (shown_held self.filter)
            (shown_held self.object) }
    {
        Tree::Phrase {
            place: self.place,
            words: self.words,
            argument: self.argument,
            filter: self.filter,
            object: self.object,
        }
    }
}

/// The folder at a path, as a phrase at this place.
fn folder_at(alloc: Global, place: Place, path: &str) -> Result<Box<Tree>, AllocError>
    ensures { IfOk result (λ new. shown new.value ≡ folder_at place path.now) }
{
    let text = Text::from_str(alloc, path)?;
    let argument = Box::new(alloc, Tree::Literal { place, text })?;
    let folder = Tree::Phrase {
        place,
        words: Text::from_str(alloc, "folder")?,
        argument: Some(argument),
        filter: None,
        object: None,
    };
    Ok(Box::new(alloc, folder)?)
}

/// A number at this place.
fn number_at(alloc: Global, place: Place, number: u32) -> Result<Box<Tree>, AllocError>
    ensures { IfOk result (λ new. shown new.value ≡ numeral place (pos number)) }
{
    let number = i64::from(number);
    Ok(Box::new(alloc, Tree::Number { place, number })?)
}
