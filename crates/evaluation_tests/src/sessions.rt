//! A run of lines over a described machine and a stepping clock, worked out by hand, and what is said of errors.
use bf_machine::{Key, PlainMachine, World, read_world};
use desk_base::{Bytes, MemorySink, StepClock};
use rel_eval::{Located, RelKind, prepare, prepare_tree, write_place};
use rel_grammar::parse;
use rel_lexer::{Place, Text, tokens};
use rel_session::{Asking, Halt, PlainReader, answer_lines, put, say_error, say_undefined};
use std::alloc::{AllocError, Global};
use std::mem::drop;

/// The folder `/b` with the files a to c, of 0, 2 and 3 bytes.
const WORLD: &[u8] = b"world
name pc2
system 12.4 Debian
offset 0
moment 0
folder /b
file 0 /b/a
file 0 /b/b
| 1
file 0 /b/c
| 12
end
";

/// The second look fails.
fn machine(alloc: Global, world: World) -> Result<PlainMachine, AllocError> {
    let looks = Vec::from_slice(alloc, &[2])?;
    Ok(PlainMachine::new(alloc, world, looks, Vec::new(alloc), Vec::new(alloc)))
}

/// A clock that gives the first three minutes of 1970.
fn minutes(alloc: Global) -> Result<StepClock, AllocError> {
    let mut moments = Vec::new(alloc);
    moments.push(0)?;
    moments.push(60)?;
    moments.push(120)?;
    Ok(StepClock::new(alloc, moments, Vec::new(alloc)))
}

/// Appends what the lines say, how they end, and what they look up.
fn tell_run(
    alloc: Global,
    input: &[u8],
    machine: &mut PlainMachine,
    clock: &mut StepClock,
    told: &mut Bytes,
) -> Result<(), AllocError> {
    let asking = Asking {
        offset: 0,
        moment: None,
    };
    let mut sink = MemorySink::new(alloc, Vec::new(alloc));
    let end = answer_lines::<PlainReader, MemorySink, PlainMachine, StepClock>(
        alloc, input, asking, &mut sink, machine, clock,
    );
    told.extend(sink.as_slice())?;
    told.extend(match end {
        Ok(()) => b"done;".as_slice(),
        Err(Halt::Clock) => b"clock;",
        Err(_) => b"other;",
    })?;
    for key in machine.looked() {
        tell_key(key, told)?;
    }
    Ok(())
}

fn tell_key(key: &Key, told: &mut Bytes) -> Result<(), AllocError> {
    match key {
        Key::Stat(path) => {
            told.extend(b"stat ")?;
            told.extend(path.as_str().as_bytes())?;
        }
        Key::List(path) => {
            told.extend(b"list ")?;
            told.extend(path.as_str().as_bytes())?;
        }
        _ => told.extend(b"other")?,
    }
    told.push(b';')
}

/// What the lines do on that machine, with those moments.
fn ran(alloc: Global, input: &[u8]) -> Option<Bytes> {
    let mut machine = machine(alloc, read_world(alloc, WORLD).ok()?).ok()?;
    let mut clock = minutes(alloc).ok()?;
    let mut told = Bytes::new(alloc);
    tell_run(alloc, input, &mut machine, &mut clock, &mut told).ok()?;
    drop(machine);
    drop(clock);
    Some(told)
}

#[test]
fn lines_are_answered(rt: HostRuntime) {
    // The look at the folder's entries fails, and is made again. A page makes its own looks alone, and each question uses a moment; the
    // last one has none.
    let input: &[u8] =
        b"sizes of files of folder \"/b\"\n:page 2\nsizes of files of folder \"/b\"\nnow\n:more\n:more\n1\n";
    let wanted: &[u8] =
        b"Q: sizes of files of folder \"/b\"\nE: The machine could not answer. (9..14)\nQ: :page 2\nQ: sizes of files of folder \"/b\"\nA: 0\nA: 2\nM: more\nQ: now\nA: Thu, 01 Jan 1970 00:02:00 +0000\nQ: :more\nA: 3\nQ: :more\nE: Nothing is paused.\nclock;stat /b;stat /b;list /b;stat /b/a;stat /b/b;stat /b/c;";
    let told = ran(rt.alloc(), input);
    assert!(rt; told.is_some_and(|told| told.as_slice() == wanted));
}

#[test]
fn errors_are_said(rt: HostRuntime) -> Result<(), AllocError> {
    let place = Place { from: 4, to: 11 };
    let words = Text::from_str(rt.alloc(), "printers")?;
    let mut out = Bytes::new(rt.alloc());
    say_error(rt.alloc(), RelKind::DivideByZero, place, &mut out)?;
    say_undefined(rt.alloc(), place, &words, &mut out)?;
    let mut sink = MemorySink::new(rt.alloc(), Vec::new(rt.alloc()));
    assert!(rt; put(&mut sink, out.as_slice()).is_ok());
    let wanted: &[u8] =
        b"E: Division by zero. (4..11)\nE: The operator \"printers\" is not defined. (4..11)\n";
    assert_eq!(rt; sink.as_slice(), wanted);
    Ok(())
}

/// The refusal of a tree, located.
fn tree_refusal(alloc: Global, text: &[u8]) -> Option<Located> {
    let tokens = tokens(alloc, text).ok()?;
    let tree = parse(alloc, &tokens).ok()?;
    match prepare_tree(alloc, &tree) {
        Ok(_) => None,
        Err(refusal) => refusal.located(),
    }
}

#[test]
fn a_tree_is_refused_as_its_text(rt: HostRuntime) {
    assert!(rt; tree_refusal(rt.alloc(), b"1 + 2").is_none());
    let Some(found) = tree_refusal(rt.alloc(), b"1 + printers") else {
        assert!(rt; false);
        return;
    };
    assert!(rt; found.kind == RelKind::NotDefined);
    assert_eq!(rt; found.place.from, 4);
    assert_eq!(rt; found.place.to, 12);
}

#[test]
fn a_refusal_is_located_and_its_place_is_written(rt: HostRuntime) -> Result<(), AllocError> {
    let found = match prepare(rt.alloc(), b"1 + printers") {
        Ok(_) => None,
        Err(refusal) => refusal.copy()?.located(),
    };
    let mut out = Bytes::from_slice(rt.alloc(), b"at ")?;
    if let Some(found) = found {
        assert!(rt; found.kind == RelKind::NotDefined);
        write_place(rt.alloc(), found.place, &mut out)?;
    }
    assert_eq!(rt; out.as_slice(), b"at (4..12)".as_slice());
    Ok(())
}
