// Each public call that takes memory, once, with values worked out by hand. All that the forms do is shown by questions.
use rel_lexer::{Place, Text};
use rel_trace::{Apply, Fold, Held, Joining, One, RelKind, Scope, Step};
use rel_value::{Value, text as text_of};
use std::alloc::Global;

const HERE: Place = Place { from: 3, to: 7 };

/// A text of at most 64 bytes.
fn held(alloc: Global, bytes: &str) -> Option<Held> {
    if bytes.len() > 64 {
        return None;
    }
    let text = Text::from_str(alloc, bytes).ok()?;
    Some(Held::new(Value::Text(text)))
}

/// Whether a step gives a value with this text.
fn gives(alloc: Global, step: &Step, wanted: &str) -> Option<bool> {
    match step {
        Step::Given(held) => {
            let text = text_of(alloc, held.value(), 0).ok()?;
            Some(text.as_str() == wanted)
        }
        _ => None,
    }
}

/// The step that follows from a concatenation's end, where its part gave a text and a copy of it. The argument stands between.
fn end_of_twice(alloc: Global, one: &mut One, text: &Held, scope: Scope<'_>) -> Option<Step> {
    for _ in 0..2 {
        if one.is_done() {
            return None;
        }
        let given = Step::Given(text.copy().ok()?);
        drop(one.after(alloc, given, scope, 0));
    }
    if one.is_done() {
        return None;
    }
    Some(one.after(alloc, Step::Over, scope, 0))
}

fn joins_twice(alloc: Global, wanted: &str) -> Option<bool> {
    let separator = held(alloc, ", ")?;
    let text = held(alloc, "ab")?;
    let scope = Scope {
        it: None,
        argument: Some(&separator),
        left: None,
    };
    let mut one = One::fold(Fold::Separated, HERE);
    let step = end_of_twice(alloc, &mut one, &text, scope)?;
    gives(alloc, &step, wanted)
}

#[test]
fn a_separator_stands_between_texts(rt: HostRuntime) {
    assert_eq!(rt; joins_twice(rt.alloc(), "ab, ab"), Some(true));
}

/// Whether a number and a text make a tuple with this text.
fn pairs(alloc: Global, wanted: &str) -> Option<bool> {
    let first = Held::new(Value::Integer(1));
    let second = held(alloc, "b")?;
    let tuple = Apply::Tuple {
        joining: Joining::Pair,
        span: HERE,
    };
    let step = tuple.tell(alloc, Some(&first), &second, 0);
    gives(alloc, &step, wanted)
}

#[test]
fn two_values_make_a_tuple(rt: HostRuntime) {
    assert_eq!(rt; pairs(rt.alloc(), "1, b"), Some(true));
    assert_eq!(rt; RelKind::OutOfRange.number(), 9);
}
