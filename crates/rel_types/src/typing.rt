// Checks a tree by going down it. `it` is the kind of what stands for `it`, if something does.
ghost use Rattle.rel_grammar.specs.Holding.{shown_held as shown_tree_held};
ghost use Rattle.rel_grammar.specs.Views.{shown, shown_links as shown_tree_links, shown_parts};
ghost use Rattle.rel_types.specs.Outcomes.{Answers};
ghost use Rattle.rel_types.specs.Tables.{shown_chained};
ghost use Rattle.rel_types.specs.Typing.{it_inside, operand, same_branch, singular, truth, typed, typed_alike, typed_argument, typed_filter, typed_links, typed_object, typed_parts};
ghost use Rattle.rel_types.specs.Views.{shown_held, shown_lent, shown_node, shown_nodes};
ghost use Rattle.rel_value.specs.Views.{shown_kind};

use crate::ask::{ask_kind, ask_singular, one_more, one_more_like};
use crate::kinds::named;
use crate::links::{Chained, one_more_link};
use crate::{Links, Node, NodeList, TypeError, make};
use rel_grammar::{LinkList, Tree, TreeList, span};
use rel_lexer::UnarySign;
use rel_value::Kind;
use std::alloc::Global;

#[cycle(typing)]
#[tactic(auto, unfolding(crate::specs::Outcomes::after, crate::specs::Outcomes::Fails))]
pub(crate) fn typed(alloc: Global, it: Option<&Kind>, tree: &Tree) -> Result<Node, TypeError>
    ensures { Answers shown_node (typed (shown_lent it.entry) (shown tree.now)) result }
{
    match tree {
        Tree::Number { place, number } => Ok(make::numeral(*place, *number)),
        Tree::Literal { place, text } => make::literal(*place, text),
        Tree::It { place } => make::it(alloc, *place, it),
        Tree::Phrase {
            place,
            words,
            argument: tree_argument,
            filter,
            object,
        } => {
            let argument = argument(alloc, it, tree_argument)?;
            let object = object_of(alloc, it, object)?;
            let headed = named(alloc, *place, words.as_str(), &argument, &object)?;
            let filter = filter_of(alloc, filter, &headed.kind)?;
            Ok(make::named(*place, headed, argument, filter, object))
        }
        Tree::Body {
            place,
            body,
            filter,
            object,
        } => {
            let object = object_of(alloc, it, object)?;
            let inner = body_of(alloc, it, body, &object)?;
            let filter = filter_of(alloc, filter, &inner.kind)?;
            Ok(make::body(alloc, *place, inner, filter, object)?)
        }
        Tree::Cast { first, casts } => {
            let first = single(alloc, it, first)?;
            make::cast(alloc, first, casts)
        }
        Tree::Unary { place, sign, right } => {
            let right = operand(alloc, it, *sign, right)?;
            make::unary(alloc, *place, *sign, right)
        }
        Tree::Chain { first, rest } => {
            let first = single(alloc, it, first)?;
            let done = links(alloc, it, rest, first.kind.copy()?)?;
            Ok(make::chain(alloc, done.kind, first, done.links)?)
        }
        Tree::If {
            place,
            test,
            yes,
            no,
        } => {
            let test = truth(alloc, it, test)?;
            let yes = typed(alloc, it, yes)?;
            let no = branch(alloc, it, no, &yes.kind)?;
            Ok(make::choice(alloc, *place, test, yes, no)?)
        }
        Tree::Tuple { parts: list } => {
            let parts = parts(alloc, it, list)?;
            make::tuple(alloc, span(tree), parts)
        }
        Tree::Collection { parts: list } => {
            let parts = alike(alloc, it, list)?;
            make::collection(span(tree), parts)
        }
    }
}

/// A part that is singular.
#[cycle(typing)]
#[tactic(auto, unfolding(crate::specs::Typing::singular, crate::specs::Outcomes::after, crate::specs::Outcomes::Fails))]
fn single(alloc: Global, it: Option<&Kind>, tree: &Tree) -> Result<Node, TypeError>
    ensures { Answers shown_node (singular (shown tree.now) (typed (shown_lent it.entry) (shown tree.now))) result }
{
    let node = typed(alloc, it, tree)?;
    ask_singular(span(tree), node)
}

/// A filter or a test, which is singular and Boolean.
#[cycle(typing)]
#[tactic(auto, unfolding(crate::specs::Typing::truth, crate::specs::Outcomes::after, crate::specs::Outcomes::Fails))]
fn truth(alloc: Global, it: Option<&Kind>, tree: &Tree) -> Result<Node, TypeError>
    ensures { Answers shown_node (truth (shown tree.now) (typed (shown_lent it.entry) (shown tree.now))) result }
{
    let node = single(alloc, it, tree)?;
    ask_kind(&Kind::Boolean, span(tree), node)
}

/// The second branch of an `if`, which has the kind of the first.
#[cycle(typing)]
#[tactic(auto, unfolding(crate::specs::Typing::same_branch, crate::specs::Outcomes::after, crate::specs::Outcomes::Fails))]
fn branch(alloc: Global, it: Option<&Kind>, tree: &Tree, kind: &Kind) -> Result<Node, TypeError>
    ensures { Answers shown_node (same_branch (shown_kind kind.now) (shown tree.now)
        (typed (shown_lent it.entry) (shown tree.now))) result }
{
    let node = typed(alloc, it, tree)?;
    ask_kind(kind, span(tree), node)
}

/// The operand of a sign before it. `exists` takes any number of values.
#[cycle(typing)]
#[tactic(auto, unfolding(crate::specs::Typing::operand, crate::specs::Outcomes::after, crate::specs::Outcomes::Fails))]
fn operand(
    alloc: Global,
    it: Option<&Kind>,
    sign: UnarySign,
    tree: &Tree,
) -> Result<Node, TypeError>
    ensures { Answers shown_node (operand sign (shown tree.now) (typed (shown_lent it.entry) (shown tree.now))) result }
{
    match sign {
        UnarySign::Exists | UnarySign::Exist => typed(alloc, it, tree),
        UnarySign::Not | UnarySign::Minus => single(alloc, it, tree),
    }
}

/// The body of an object, each of whose values is `it`; without an object `it` is what it is around.
#[cycle(typing)]
fn body_of(
    alloc: Global,
    it: Option<&Kind>,
    body: &Tree,
    object: &Option<Box<Node>>,
) -> Result<Node, TypeError>
    ensures { Answers shown_node (typed (it_inside (shown_lent it.entry) (shown_held object.now)) (shown body.now)) result }
{
    match object {
        Some(node) => typed(alloc, Some(&node.kind), body),
        None => typed(alloc, it, body),
    }
}

#[cycle(typing)]
#[tactic(auto, unfolding(crate::specs::Outcomes::after, crate::specs::Outcomes::Fails))]
fn argument(
    alloc: Global,
    it: Option<&Kind>,
    tree: &Option<Box<Tree>>,
) -> Result<Option<Box<Node>>, TypeError>
    ensures { Answers shown_held (typed_argument (shown_lent it.entry) (shown_tree_held tree.now)) result }
{
    match tree {
        Some(tree) => Ok(make::held(alloc, single(alloc, it, tree)?)?),
        None => Ok(None),
    }
}

#[cycle(typing)]
#[tactic(auto, unfolding(crate::specs::Outcomes::after, crate::specs::Outcomes::Fails))]
fn object_of(
    alloc: Global,
    it: Option<&Kind>,
    tree: &Option<Box<Tree>>,
) -> Result<Option<Box<Node>>, TypeError>
    ensures { Answers shown_held (typed_object (shown_lent it.entry) (shown_tree_held tree.now)) result }
{
    match tree {
        Some(tree) => Ok(make::held(alloc, typed(alloc, it, tree)?)?),
        None => Ok(None),
    }
}

/// A filter of values of this kind.
#[cycle(typing)]
#[tactic(auto, unfolding(crate::specs::Outcomes::after, crate::specs::Outcomes::Fails))]
fn filter_of(
    alloc: Global,
    tree: &Option<Box<Tree>>,
    kind: &Kind,
) -> Result<Option<Box<Node>>, TypeError>
    ensures { Answers shown_held (typed_filter (shown_kind kind.now) (shown_tree_held tree.now)) result }
{
    match tree {
        Some(tree) => Ok(make::held(alloc, truth(alloc, Some(kind), tree)?)?),
        None => Ok(None),
    }
}

/// The operands behind the first, which is of this kind.
#[cycle(typing)]
fn links(
    alloc: Global,
    it: Option<&Kind>,
    rest: &LinkList,
    first: Kind,
) -> Result<Chained, TypeError>
    ensures { Answers shown_chained (typed_links (shown_lent it.entry) (shown_kind first) (shown_tree_links rest.now)) result }
{
    let mut done = Chained {
        kind: first,
        links: Links::new(alloc),
    };
    for link in rest.as_slice() {
        let right = single(alloc, it, &link.right)?;
        done = one_more_link(alloc, done, link.place, link.sign, span(&link.right), right)?;
    }
    Ok(done)
}

/// The parts of a tuple.
#[cycle(typing)]
fn parts(alloc: Global, it: Option<&Kind>, trees: &TreeList) -> Result<NodeList, TypeError>
    ensures { Answers shown_nodes (typed_parts (shown_lent it.entry) (shown_parts trees.now)) result }
{
    let mut nodes = NodeList::new(alloc);
    for tree in trees.as_slice() {
        let node = typed(alloc, it, tree)?;
        nodes = one_more(nodes, node)?;
    }
    Ok(nodes)
}

/// The parts of a collection, which have one kind.
#[cycle(typing)]
fn alike(alloc: Global, it: Option<&Kind>, trees: &TreeList) -> Result<NodeList, TypeError>
    ensures { Answers shown_nodes (typed_alike (shown_lent it.entry) (shown_parts trees.now)) result }
{
    let mut nodes = NodeList::new(alloc);
    for tree in trees.as_slice() {
        let node = typed(alloc, it, tree)?;
        nodes = one_more_like(nodes, span(tree), node)?;
    }
    Ok(nodes)
}
