//! Checking: a plan and its copy, a fault and its copy. The kinds, numbers and faults of questions are in examples/.
use rel_grammar::{Tree, parse};
use rel_lexer::tokens;
use rel_types::*;
use rel_value::Kind;
use std::alloc::Global;

/// The tree of a question, where it has one.
fn tree_of(alloc: Global, question: &str) -> Option<Tree> {
    let tokens = tokens(alloc, question.as_bytes()).ok()?;
    parse(alloc, &tokens).ok()
}

/// Whether the copy of a question's plan is an `if` that gives one text.
fn is_one_text(alloc: Global, question: &str) -> Option<bool> {
    let tree = tree_of(alloc, question)?;
    let plan = check(alloc, &tree).ok()?;
    let copied = plan.copy().ok()?;
    Some(
        copied.kind().is(&Kind::Text)
            && !copied.is_plural()
            && matches!(copied.root().form, Form::If { .. }),
    )
}

#[test]
fn a_plan_is_copied(rt: HostRuntime) {
    let question = "if exists (1; 2) then \"a\" as uppercase & \"b\" else item 0 of (\"c\", 1)";
    assert_eq!(rt; is_one_text(rt.alloc(), question), Some(true));
}

/// Whether the copied fault of a question is that nothing is defined of these words, at this place.
fn is_undefined(alloc: Global, question: &str, from: u32, to: u32, wanted: &str) -> Option<bool> {
    let tree = tree_of(alloc, question)?;
    let Err(fault) = check(alloc, &tree) else {
        return None;
    };
    match fault.copy().ok()? {
        TypeError::NotDefined(at, words) => {
            Some(at.from == from && at.to == to && words.as_str() == wanted)
        }
        _ => Some(false),
    }
}

#[test]
fn a_fault_is_copied(rt: HostRuntime) {
    let answer = is_undefined(rt.alloc(), "1 + size of  FOO bar", 13, 20, "foo bar");
    assert_eq!(rt; answer, Some(true));
}

/// A law of the definitions, whose call does nothing.
#[test]
fn a_law_holds() {
    plans_agree();
}
