//! Questions with their looks, worked out by hand from the meaning of each form. What they answer is asked of the program, in
//! `examples/`; no command tells which looks were made.
ghost use Rattle.rel_value.specs.Operands.{IsSound};
ghost use Rattle.rel_value.specs.Views.{shown};

use crate::described::{machine, push_looks, scene};
use bf_machine::PlainMachine;
use rel_eval::{
    Cursor, Ended, OneText, Pulled, Question, RelKind, Take, Taker, Truth, one_text, prepare, truth,
};
use rel_lexer::Place;
use rel_value::{Value, text as text_of};
use std::alloc::Global;
use std::mem::drop;
use std::test::Fail;

/// Appends a value as its text in brackets.
fn push_value(alloc: Global, drawn: &mut String, value: &Value) -> Result<(), Fail>
    requires { IsSound (shown value.now) }
{
    let text = text_of(alloc, value, -480).map_err(|_| "no text")?;
    drawn.push_str("[")?;
    drawn.push_str(text.as_str())?;
    drawn.push_str("]")?;
    Ok(())
}

/// Appends an error as `!`, its number and its place.
fn push_error(text: &mut String, kind: RelKind, place: Place) -> Result<(), Fail> {
    write!(text, "!{} {}..{};", kind.number(), place.from, place.to)?;
    Ok(())
}

/// Appends a failed look as `?` and its place.
fn push_fault(text: &mut String, place: Place) -> Result<(), Fail> {
    write!(text, "?{}..{};", place.from, place.to)?;
    Ok(())
}

/// Appends what the next pull of a cursor gives; the end is `.`.
fn push_pull(
    alloc: Global,
    cursor: &mut Cursor,
    machine: &mut PlainMachine,
    drawn: &mut String,
) -> Result<(), Fail> {
    match cursor.pull(machine).copy()? {
        Pulled::Value(value) => {
            let pushed = push_value(alloc, drawn, &value);
            drop(value);
            pushed
        }
        Pulled::End => Ok(drawn.push_str(".")?),
        Pulled::Error(kind, place) => push_error(drawn, kind, place),
        Pulled::Failed(place) => push_fault(drawn, place),
        Pulled::Memory => Ok(drawn.push_str("memory")?),
        Pulled::Closed => Ok(drawn.push_str("closed")?),
    }
}

/// Appends what so many pulls give, and then the looks that were made.
fn push_pulls(
    alloc: Global,
    cursor: &mut Cursor,
    machine: &mut PlainMachine,
    most: u32,
    drawn: &mut String,
) -> Result<(), Fail> {
    for _ in 0..most {
        push_pull(alloc, cursor, machine, drawn)?;
    }
    drawn.push_str(" ")?;
    push_looks(machine, drawn)
}

/// The same of a question from its start.
fn push_drawn(
    alloc: Global,
    question: &Question,
    machine: &mut PlainMachine,
    most: u32,
    drawn: &mut String,
) -> Result<(), Fail> {
    let Ok(mut cursor) = question.open(alloc, &scene(alloc)) else {
        return Err("no cursor".into());
    };
    let pushed = push_pulls(alloc, &mut cursor, machine, most, drawn);
    drop(cursor);
    pushed
}

/// The same of a copy of it, on a machine on which the looks with these numbers fail.
fn push_copied(
    alloc: Global,
    question: &Question,
    most: u32,
    fails: &[u32],
    drawn: &mut String,
) -> Result<(), Fail> {
    let Some(mut machine) = machine(alloc, fails) else {
        return Err("no machine".into());
    };
    let pushed = push_drawn(alloc, question, &mut machine, most, drawn);
    drop(machine);
    pushed
}

/// The same of a text.
fn draws(
    alloc: Global,
    text: &str,
    most: u32,
    fails: &[u32],
    drawn: &mut String,
) -> Result<(), Fail> {
    let Ok(question) = prepare(alloc, text.as_bytes()) else {
        return Err("refused".into());
    };
    let pushed = push_copied(alloc, &question, most, fails, drawn);
    drop(question);
    pushed
}

#[test]
fn looks_are_made_as_values_are_drawn(rt: HostRuntime) -> Result<(), Fail> {
    let rows: [(&str, u32, &[u32], &str); 8] = [
        (
            "names of files whose (line 1 of it contains \"x\") of folder \"/a\"",
            2,
            &[],
            "[one]. stat /a;list /a;read /a/empty;read /a/one;",
        ),
        (
            "file of folder \"/a\"",
            2,
            &[],
            "!16 0..4;!16 0..4; stat /a;list /a;",
        ),
        ("exists size of file \"/no\"", 2, &[], "[False]. stat /no;"),
        (
            "sizes of files of folder \"/a\"",
            1,
            &[],
            "[0] stat /a;list /a;stat /a/empty;",
        ),
        (
            "exists files of folder \"/a\"",
            2,
            &[],
            "[True]. stat /a;list /a;",
        ),
        (
            "exists file \"/a/one\" and exists file \"/no\" and exists file \"/a/empty\"",
            2,
            &[],
            "[False]. stat /a/one;stat /no;",
        ),
        ("(1/0) | size of file \"/no\" | 5", 1, &[], "[5] stat /no;"),
        (
            "size of file \"/a/empty\"",
            3,
            &[1],
            "?8..23;[0]. stat /a/empty;stat /a/empty;",
        ),
    ];
    for (question, most, fails, wanted) in rows {
        let mut drawn = String::new(rt.alloc());
        draws(rt.alloc(), question, most, fails, &mut drawn)?;
        assert_eq!(rt; drawn.as_str(), wanted, "at {question:?}");
    }
    Ok(())
}

/// Wants so many values.
#[derive(Drop)]
struct Wanted {
    left: u32,
}

impl Taker for Wanted {
    ghost takes = { λ old v answer new. Unit {0} };

    fn take(&mut self, _value: &Value) -> Take {
        if self.left < 2 {
            self.left = 0;
            return Take::Enough;
        }
        self.left -= 1;
        Take::More
    }
}

fn push_truth(text: &mut String, truth: Truth) -> Result<(), Fail> {
    match truth {
        Truth::True => Ok(text.push_str("true;")?),
        Truth::False => Ok(text.push_str("false;")?),
        Truth::Error(kind, place) => push_error(text, kind, place),
        Truth::Failed(place) => push_fault(text, place),
        Truth::Memory => Ok(text.push_str("memory;")?),
    }
}

fn push_end(text: &mut String, ended: Ended) -> Result<(), Fail> {
    match ended {
        Ended::Stop => Ok(text.push_str("stop;")?),
        Ended::Enough => Ok(text.push_str("enough;")?),
        Ended::Error(kind, place) => push_error(text, kind, place),
        Ended::Failed(place) => push_fault(text, place),
        Ended::Memory => Ok(text.push_str("memory;")?),
    }
}

fn push_one_text(text: &mut String, found: &OneText) -> Result<(), Fail> {
    match found {
        OneText::Text(one) => Ok(text.push_str(one.as_str())?),
        OneText::Error(kind, place) => push_error(text, *kind, *place),
        OneText::Failed(place) => push_fault(text, *place),
        OneText::Memory => Ok(text.push_str("memory;")?),
    }
}

/// Appends the truth of a question, how its answer ends to a taker that wants two values, how many it wants still, the question's one
/// text, and where it ends.
fn push_asked(
    alloc: Global,
    question: &Question,
    machine: &mut PlainMachine,
    text: &mut String,
) -> Result<(), Fail> {
    let scene = scene(alloc);
    push_truth(text, truth(alloc, question, machine, &scene))?;
    let mut taker = Wanted { left: 2 };
    push_end(text, question.answer(alloc, machine, &scene, &mut taker))?;
    push_one_text(text, &one_text(alloc, question, machine, &scene).copy()?)?;
    write!(text, " {} {}", taker.left, question.span().to)?;
    Ok(())
}

/// The same on a machine on which the second look fails.
fn push_asked_there(alloc: Global, question: &Question, text: &mut String) -> Result<(), Fail> {
    let Some(mut machine) = machine(alloc, &[2]) else {
        return Err("no machine".into());
    };
    let pushed = push_asked(alloc, question, &mut machine, text);
    drop(machine);
    pushed
}

/// The same of a copy of a text's question.
fn asks(alloc: Global, question: &str, text: &mut String) -> Result<(), Fail> {
    let Ok(question) = prepare(alloc, question.as_bytes()) else {
        return Err("refused".into());
    };
    let copy = question.copy();
    drop(question);
    let Ok(copy) = copy else {
        return Err("no copy".into());
    };
    let pushed = push_asked_there(alloc, &copy, text);
    drop(copy);
    pushed
}

#[test]
fn a_truth_a_taker_and_a_text_are_served(rt: HostRuntime) -> Result<(), Fail> {
    let rows: [(&str, &str); 4] = [
        (
            "exists file \"/a/empty\" and exists file \"/a/one\"",
            "?34..47;stop;True 1 47",
        ),
        ("1; 2; 1/0", "!13 0..9;enough;!13 0..9; 0 9"),
        ("size of file \"/a/one\"", "!14 0..21;?0..4;4 2 21"),
        (
            "now as string & \"!\"",
            "!14 0..19;stop;Sun, 04 Mar 2007 16:04:08 -0800! 1 19",
        ),
    ];
    for (question, wanted) in rows {
        let mut text = String::new(rt.alloc());
        asks(rt.alloc(), question, &mut text)?;
        assert_eq!(rt; text.as_str(), wanted, "at {question:?}");
    }
    Ok(())
}
