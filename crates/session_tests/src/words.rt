// Questions, and what they are with the words of the tables replaced, by hand from the table of words. No command prints a tree.
use rel_grammar::{Tree, parse};
use rel_lexer::tokens;
use rel_print::print;
use session_words::replaced;
use std::alloc::Global;

const REPLACED: [(&str, &str); 15] = [
    ("bes computer", "folder of folder\"/computers\""),
    (
        "names of bes computers",
        "names of folders of folder\"/computers\"",
    ),
    ("bes action \"7\"", "file\"7\"of folder\"/actions\""),
    (
        "not exists bes actions",
        "not exists files of folder\"/actions\"",
    ),
    ("-(bes site)", "-(file of folder\"/sites\")"),
    ("1, bes sites; 2", "1,files of folder\"/sites\";2"),
    (
        "if true then result 3 of it else results of it",
        "if true then file 3of it else files of it",
    ),
    (
        "status of result \"7\" of bes computer \"pc1\"",
        "line 1of file\"7\"of folder\"pc1\"of folder\"/computers\"",
    ),
    (
        "bes computers whose (exists statuses of it)",
        "folders whose(exists lines 1of it)of folder\"/computers\"",
    ),
    ("attempt of it as integer", "line 2of it as integer"),
    ("attempts of it = 3", "lines 2of it=3"),
    (
        "file (name of bes site)",
        "file(name of file of folder\"/sites\")",
    ),
    ("results", "results"),
    ("bes computers of it", "bes computers of it"),
    ("statuses \"a\" of it", "statuses\"a\"of it"),
];

fn tree_of(alloc: Global, question: &str) -> Option<Tree> {
    let tokens = tokens(alloc, question.as_bytes()).ok()?;
    parse(alloc, &tokens).ok()
}

/// Whether a question is this with its words replaced.
fn becomes(alloc: Global, question: &str, wanted: &str) -> Option<bool> {
    let tree = replaced(alloc, &tree_of(alloc, question)?).ok()?;
    let text = print(alloc, &tree).ok()?;
    Some(text.as_str() == wanted)
}

/// The place of the first row that isn't so.
fn first_wrong(alloc: Global) -> Option<usize> {
    for (place, (question, wanted)) in REPLACED.iter().enumerate() {
        if becomes(alloc, question, wanted) != Some(true) {
            return Some(place);
        }
    }
    None
}

#[test]
fn words_of_the_tables_are_replaced(rt: HostRuntime) {
    assert_eq!(rt; first_wrong(rt.alloc()), None);
}
