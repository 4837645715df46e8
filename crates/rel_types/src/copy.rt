// The same plan once more. What it takes is from the memory that the plan is in.
ghost use Rattle.std.specs.Prelude.{◌≡◌, IfOk};
ghost use Rattle.rel_types.specs.Views.{shown_form, shown_held, shown_link, shown_links, shown_node, shown_nodes};

use crate::{Form, Link, Links, Node, NodeList};
use std::alloc::AllocError;

impl Node {
    /// The same node once more.
    #[cycle(copy)]
    pub fn copy(&self) -> Result<Node, AllocError>
        ensures { IfOk result (λ node. shown_node node ≡ shown_node self.now) }
    {
        Ok(Node {
            kind: self.kind.copy()?,
            plural: self.plural,
            form: self.form.copy()?,
        })
    }
}

impl Form {
    /// The same form once more.
    #[cycle(copy)]
    pub fn copy(&self) -> Result<Form, AllocError>
        ensures { IfOk result (λ form. shown_form form ≡ shown_form self.now) }
    {
        match self {
            Form::Number { place, number } => Ok(Form::Number {
                place: *place,
                number: *number,
            }),
            Form::Literal { place, text } => Ok(Form::Literal {
                place: *place,
                text: text.copy()?,
            }),
            Form::It { place } => Ok(Form::It { place: *place }),
            Form::Phrase {
                place,
                head,
                argument,
                filter,
                object,
            } => Ok(Form::Phrase {
                place: *place,
                head: *head,
                argument: copy_held(argument)?,
                filter: copy_held(filter)?,
                object: copy_held(object)?,
            }),
            Form::Body {
                place,
                body,
                filter,
                object,
            } => Ok(Form::Body {
                place: *place,
                body: copy_box(body)?,
                filter: copy_held(filter)?,
                object: copy_held(object)?,
            }),
            Form::Cast { first, casts } => Ok(Form::Cast {
                first: copy_box(first)?,
                casts: casts.copy()?,
            }),
            Form::Unary { place, sign, right } => Ok(Form::Unary {
                place: *place,
                sign: *sign,
                right: copy_box(right)?,
            }),
            Form::Chain { first, rest } => Ok(Form::Chain {
                first: copy_box(first)?,
                rest: rest.copy()?,
            }),
            Form::If {
                place,
                test,
                yes,
                no,
            } => Ok(Form::If {
                place: *place,
                test: copy_box(test)?,
                yes: copy_box(yes)?,
                no: copy_box(no)?,
            }),
            Form::Tuple { parts } => Ok(Form::Tuple {
                parts: parts.copy()?,
            }),
            Form::Collection { parts } => Ok(Form::Collection {
                parts: parts.copy()?,
            }),
        }
    }
}

#[cycle(copy)]
fn copy_box(node: &Box<Node>) -> Result<Box<Node>, AllocError>
    ensures { IfOk result (λ copied. shown_node copied.value ≡ shown_node node.now.value) }
{
    Ok(Box::new(*Box::allocator(node), node.copy()?)?)
}

#[cycle(copy)]
fn copy_held(held: &Option<Box<Node>>) -> Result<Option<Box<Node>>, AllocError>
    ensures { IfOk result (λ copied. shown_held copied ≡ shown_held held.now) }
{
    match held {
        Some(node) => Ok(Some(Box::new(*Box::allocator(node), node.copy()?)?)),
        None => Ok(None),
    }
}

impl Link {
    /// The same link once more.
    #[cycle(copy)]
    pub fn copy(&self) -> Result<Link, AllocError>
        ensures { IfOk result (λ link. shown_link link ≡ shown_link self.now) }
    {
        Ok(Link {
            place: self.place,
            sign: self.sign,
            right: self.right.copy()?,
        })
    }
}

impl Links {
    /// The same links once more.
    #[cycle(copy)]
    pub fn copy(&self) -> Result<Links, AllocError>
        ensures { IfOk result (λ links. shown_links links ≡ shown_links self.now) }
    {
        let mut copies = Links::new(*self.items.allocator());
        for link in &self.items {
            copies.push(link.copy()?)?;
        }
        Ok(copies)
    }
}

impl NodeList {
    /// The same nodes once more.
    #[cycle(copy)]
    pub fn copy(&self) -> Result<NodeList, AllocError>
        ensures { IfOk result (λ nodes. shown_nodes nodes ≡ shown_nodes self.now) }
    {
        let mut copies = NodeList::new(*self.items.allocator());
        for node in &self.items {
            copies.push(node.copy()?)?;
        }
        Ok(copies)
    }
}
