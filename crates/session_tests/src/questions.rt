// What is said of questions over small tables, by hand from the rules of the words and of the world of the tables.
use crate::tables::keeper;
use desk_base::{MemorySink, StepClock};
use desk_keep::MemoryKeeper;
use session_view::answer_over_tables;
use std::alloc::Global;

/// A question, and what is said behind its line.
const SAID: [(&str, &str); 24] = [
    ("names of bes computers", "A: pc1\nA: pc1-a\nA: pc2\n"),
    (
        "names of bes computers whose (exists results \"7\" of it)",
        "A: pc1\n",
    ),
    (
        "status of result \"7\" of bes computer \"pc1\"",
        "A: failed\n",
    ),
    ("attempt of result \"7\" of bes computer \"pc1\"", "A: 2\n"),
    (
        "lines of result \"7\" of bes computer \"pc1\"",
        "A: failed\nA: 2\nA: 1000\nA: 1060\nA: 4\nA: -3\n",
    ),
    (
        "lines of result \"17\" of bes computer \"pc1\"",
        "A: running\nA: 2\nA: 1000\nA: -\nA: 4\nA: -\n",
    ),
    (
        "bes computer",
        "E: Singular expression refers to non-unique object. (0..12)\n",
    ),
    (
        "results",
        "E: The operator \"results\" is not defined. (0..7)\n",
    ),
    ("names of bes actions", "A: 17\nA: 3\nA: 30\n"),
    ("names of results of bes computer \"pc1\"", "A: 17\nA: 7\n"),
    ("line 2 of bes action \"17\"", "A: state stopped\n"),
    ("exists bes action \"07\"", "A: False\n"),
    ("exists bes action \"9007199254740993\"", "A: False\n"),
    ("exists bes action \"18446744073709551617\"", "A: False\n"),
    ("names of bes sites", "A: desk\n"),
    ("exists bes site \"actionsite\"", "A: False\n"),
    ("number of results of bes computer \"pc2\"", "A: 0\n"),
    ("exists file \"/computers/pc9/8\"", "A: True\n"),
    ("exists folder \"/computers/pc9\"", "A: False\n"),
    (
        "bes computers whose (true) + 1",
        "E: A singular expression is required. (0..13)\n",
    ),
    (
        "(bes computers whose (true)) + 1",
        "E: A singular expression is required. (0..28)\n",
    ),
    (
        "statuses of bes computers",
        "E: The operator \"lines\" is not defined. (0..8)\n",
    ),
    (
        "names of folders of folder \"/\"",
        "A: actions\nA: computers\nA: sites\n",
    ),
    (
        "computer name & name of operating system",
        "A: serverdesk\n",
    ),
];

/// What is said of the lines. None where it halts.
fn said(alloc: Global, keeper: &mut MemoryKeeper, lines: &str) -> Option<MemorySink> {
    let moments = [1000, 1000, 1000, 1000].to_vec(alloc).ok()?;
    let mut clock = StepClock::new(alloc, moments, Vec::new(alloc));
    let mut sink = MemorySink::new(alloc, Vec::new(alloc));
    answer_over_tables(alloc, lines.as_bytes(), &mut sink, keeper, &mut clock).ok()?;
    Some(sink)
}

/// Whether this is said behind the line of a question.
fn says(alloc: Global, keeper: &mut MemoryKeeper, question: &str, wanted: &str) -> bool {
    let Some(sink) = said(alloc, keeper, question) else {
        return false;
    };
    let Some(rest) = sink.as_slice().strip_prefix(b"Q: ") else {
        return false;
    };
    let Some(rest) = rest.strip_prefix(question.as_bytes()) else {
        return false;
    };
    rest.strip_prefix(b"\n") == Some(wanted.as_bytes())
}

/// The place of the first row that isn't so.
fn first_wrong(alloc: Global, keeper: &mut MemoryKeeper) -> Option<usize> {
    for (place, (question, wanted)) in SAID.iter().enumerate() {
        if !says(alloc, keeper, question, wanted) {
            return Some(place);
        }
    }
    None
}

#[test]
fn questions_are_answered(rt: HostRuntime) {
    let alloc = rt.alloc();
    let Some(mut keeper) = keeper(alloc, Vec::new(alloc)) else {
        assert!(rt; false);
        return;
    };
    assert_eq!(rt; first_wrong(alloc, &mut keeper), None);
}

/// The lines whose first two looks fail.
const LINES: &str = "names of bes computers\nexists bes computer \"pc1\"\nnames of bes sites\n";

const FAULTS: &[u8] = b"Q: names of bes computers
E: The machine could not answer. (9..22)
Q: exists bes computer \"pc1\"
E: The machine could not answer. (7..25)
Q: names of bes sites
A: desk
";

/// What is said of these lines over a keeper whose first two reading calls fail.
fn faults(alloc: Global) -> Option<MemorySink> {
    let mut keeper = keeper(alloc, [1, 2].to_vec(alloc).ok()?)?;
    said(alloc, &mut keeper, LINES)
}

#[test]
fn a_fault_of_the_keeper_is_said(rt: HostRuntime) {
    let told = faults(rt.alloc());
    assert!(rt; told.is_some_and(|sink| sink.as_slice() == FAULTS));
}
