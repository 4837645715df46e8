// Questions in which a word of the tables stands at a depth of 63, 64 and 65, by hand from the rules of depth.
use rel_eval::RelKind;
use rel_lexer::Place;
use session_view::prepare_session;
use std::alloc::Global;

/// A question: what stands before it so often, what stands behind it as often, and the place at which it is too deep, if it is.
type Deep = (
    &'static str,
    usize,
    &'static str,
    &'static str,
    Option<(u32, u32)>,
);

const DEEP: [Deep; 24] = [
    ("(", 63, "bes computers", ")", None),
    ("(", 64, "bes computers", ")", Some((64, 77))),
    ("(", 65, "bes computers", ")", Some((64, 65))),
    ("not ", 62, "exists bes computers", "", None),
    ("not ", 63, "exists bes computers", "", Some((259, 272))),
    ("not ", 64, "exists bes computers", "", Some((256, 262))),
    ("it of ", 63, "bes computers", "", None),
    ("it of ", 64, "bes computers", "", Some((384, 397))),
    ("it of ", 65, "bes computers", "", Some((390, 393))),
    (
        "if true then 1 else ",
        62,
        "number of bes computers",
        "",
        None,
    ),
    (
        "if true then 1 else ",
        63,
        "number of bes computers",
        "",
        Some((1270, 1283)),
    ),
    (
        "if true then 1 else ",
        64,
        "number of bes computers",
        "",
        Some((1290, 1293)),
    ),
    ("(", 61, "if exists bes computers then 1 else 2", ")", None),
    (
        "(",
        62,
        "if exists bes computers then 1 else 2",
        ")",
        Some((72, 85)),
    ),
    (
        "(",
        63,
        "if exists bes computers then 1 else 2",
        ")",
        Some((66, 72)),
    ),
    (
        "(",
        61,
        "if true then exists bes computers else false",
        ")",
        None,
    ),
    (
        "(",
        62,
        "if true then exists bes computers else false",
        ")",
        Some((82, 95)),
    ),
    (
        "(",
        63,
        "if true then exists bes computers else false",
        ")",
        Some((76, 82)),
    ),
    (
        "(",
        61,
        "folders whose (exists bes computers) of folder \"/\"",
        ")",
        None,
    ),
    (
        "(",
        62,
        "folders whose (exists bes computers) of folder \"/\"",
        ")",
        Some((84, 97)),
    ),
    (
        "(",
        63,
        "folders whose (exists bes computers) of folder \"/\"",
        ")",
        Some((78, 84)),
    ),
    ("(", 61, "file (name of bes site \"x\")", ")", None),
    (
        "(",
        62,
        "file (name of bes site \"x\")",
        ")",
        Some((76, 88)),
    ),
    (
        "(",
        63,
        "file (name of bes site \"x\")",
        ")",
        Some((77, 80)),
    ),
];

/// The text of a row.
fn text_of(alloc: Global, row: Deep) -> Option<String> {
    let (front, times, question, back, _) = row;
    let mut text = String::new(alloc);
    for _ in 0..times {
        text.push_str(front).ok()?;
    }
    text.push_str(question).ok()?;
    for _ in 0..times {
        text.push_str(back).ok()?;
    }
    Some(text)
}

/// Whether a text is a question, or too deep at this place.
fn is_so(alloc: Global, text: &str, wanted: Option<(u32, u32)>) -> bool {
    match prepare_session(alloc, text.as_bytes()) {
        Ok(_) => wanted.is_none(),
        Err(refusal) => match (refusal.located(), wanted) {
            (Some(found), Some((from, to))) => {
                found.kind == RelKind::TooDeep && found.place == Place { from, to }
            }
            _ => false,
        },
    }
}

/// The place of the first row that isn't so.
fn first_wrong(alloc: Global) -> Option<usize> {
    for (place, row) in DEEP.iter().enumerate() {
        let Some(text) = text_of(alloc, *row) else {
            return Some(place);
        };
        if !is_so(alloc, text.as_str(), row.4) {
            return Some(place);
        }
    }
    None
}

#[test]
fn words_at_the_greatest_depth_are_refused(rt: HostRuntime) {
    assert_eq!(rt; first_wrong(rt.alloc()), None);
}
