// Questions, and the texts with no blank, bracket or escape that they can do without, by hand. No command prints a tree.
use rel_grammar::{Tree, parse};
use rel_lexer::tokens;
use rel_print::print;
use std::alloc::{AllocError, Global};
use std::test::Fail;

const PRINTED: [(&str, &str); 18] = [
    ("(1; 2; 0; 4) whose (4 / it = 2)", "(1;2;0;4)whose(4/it=2)"),
    ("1 of 2", "1of 2"),
    ("(1) of 2", "1of 2"),
    ("((1)) of 2", "((1))of 2"),
    ("(it) whose (true)", "it whose(true)"),
    ("(\"a\") whose (true) of it", "\"a\"whose(true)of it"),
    ("(1 + 2) of 3", "(1+2)of 3"),
    ("(1)", "(1)"),
    ("line 007 of it", "line 7of it"),
    ("-1 - -(2)", "-1--(2)"),
    ("IF a THEN 1 ELSE b, c", "if a then 1else b,c"),
    ("1 is not (not 2)", "1is not(not 2)"),
    ("\"100%25 %2541 %22 %4 %%\"", "\"100% %2541 %22 %4 %%\""),
    ("1 < (2) | 3 / - 4", "1<(2)|3/-4"),
    ("names  /* c */  files", "names files"),
    (
        "names of files whose (it = 1) of folder \"/\"",
        "names of files whose(it=1)of folder\"/\"",
    ),
    ("a does not start with b", "a does not start with b"),
    (
        "- 1 as trimmed  string as integer",
        "-1as trimmed string as integer",
    ),
];

fn tree_of(alloc: Global, question: &str) -> Option<Tree> {
    let tokens = tokens(alloc, question.as_bytes()).ok()?;
    parse(alloc, &tokens).ok()
}

/// Whether this is printed for the tree of a question.
fn is_printed(alloc: Global, question: &str, wanted: &str) -> Result<bool, AllocError> {
    match tree_of(alloc, question) {
        Some(tree) => is_text_of(alloc, &tree, wanted),
        None => Ok(false),
    }
}

fn is_text_of(alloc: Global, tree: &Tree, wanted: &str) -> Result<bool, AllocError> {
    let text = print(alloc, tree)?;
    Ok(text.as_str() == wanted)
}

#[test]
fn texts_are_as_short_as_they_can_be(rt: HostRuntime) -> Result<(), Fail> {
    for (question, wanted) in PRINTED {
        assert!(rt; is_printed(rt.alloc(), question, wanted)?, "{question}");
    }
    Ok(())
}
