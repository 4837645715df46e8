// Books: what becomes of analyses and groups. Each table is lent to one function that tells the first row that isn't so.
use crate::shown::analysis;
use group_core::{Added, Book, Defined, Group, read_group};
use std::alloc::Global;
use std::test::Fail;

/// A text, and what is answered to it, in a word.
pub(crate) type Row = (&'static [u8], &'static str);

const ANALYSES: [Row; 8] = [
    (b"analysis\nproperty a 0 1\nproperty b 0 1\nend\n", "ok"),
    (b"analysis\nproperty a 0 1\nproperty b 0 1\nend\n", "again"),
    (b"analysis\nproperty b 0 1\nend\n", "again"),
    (
        b"analysis\nproperty a 0 1\nproperty b 1 1\nend\n",
        "taken b",
    ),
    (
        b"analysis\nproperty c 0 1\nproperty d 0 1\nproperty b 0 2\nend\n",
        "taken b",
    ),
    (b"analysis\nproperty c 0 1\nproperty d 0 1\nend\n", "full 3"),
    (b"analysis\nproperty a 0 1\nproperty c 0 1\nend\n", "ok"),
    (b"analysis\nproperty d 0 1\nend\n", "full 3"),
];

/// What was answered to an analysis, in a word.
fn added(answer: Added) -> &'static str {
    match answer {
        Added::Ok => "ok",
        Added::Again => "again",
        Added::Taken(name) => {
            if name.as_str() == "b" {
                "taken b"
            } else {
                "taken"
            }
        }
        Added::Full(3) => "full 3",
        Added::Full(_) => "full",
        Added::Memory => "no memory",
    }
}

/// Whether this is answered to an analysis.
fn is_added(alloc: Global, book: &mut Book, row: &Row) -> Result<bool, Fail> {
    let analysis = analysis(alloc, row.0)?;
    Ok(added(book.add(&analysis)) == row.1)
}

fn first_wrong_analysis(
    alloc: Global,
    book: &mut Book,
    rows: &[Row],
) -> Result<Option<usize>, Fail> {
    for (before, row) in rows.iter().enumerate() {
        if !is_added(alloc, book, row)? {
            return Ok(Some(before));
        }
    }
    Ok(None)
}

#[test]
fn an_analysis_is_added_or_refused(rt: HostRuntime) -> Result<(), Fail> {
    let mut book = Book::new(rt.alloc(), 3);
    assert_eq!(rt;
        first_wrong_analysis(rt.alloc(), &mut book, &ANALYSES)?,
        None
    );
    assert_eq!(rt; book.properties().len(), 3);
    Ok(())
}

const GROUPS: [Row; 8] = [
    (b"group g\nmatch all\nhas a 1\nlacks a 2\nend\n", "ok"),
    (b"group g\nmatch all\nhas a 1\nlacks a 2\nend\n", "again"),
    (b"group g\nmatch any\nhas a 1\nlacks a 2\nend\n", "ok"),
    (b"group g\nmatch any\nlacks a 2\nhas a 1\nend\n", "ok"),
    (b"group h\nmatch any\nerror a\nend\n", "ok"),
    (b"group i\nmatch any\nerror a\nend\n", "full 2"),
    (b"group h\nmatch any\nerror b\nend\n", "ok"),
    (b"group g\nmatch any\nlacks a 2\nhas a 1\nend\n", "again"),
];

/// What was answered to a group, in a word.
fn defined(answer: Defined) -> &'static str {
    match answer {
        Defined::Ok => "ok",
        Defined::Again => "again",
        Defined::Full(2) => "full 2",
        Defined::Full(_) => "full",
        Defined::Memory => "no memory",
    }
}

fn group(alloc: Global, text: &[u8]) -> Result<Group, Fail> {
    match read_group(alloc, text) {
        Ok(group) => Ok(group),
        Err(_) => Err("no group".into()),
    }
}

/// Whether this is answered to a group.
fn is_defined(alloc: Global, book: &mut Book, row: &Row) -> Result<bool, Fail> {
    let group = group(alloc, row.0)?;
    Ok(defined(book.define(&group)) == row.1)
}

/// The first of the groups to which something else is answered.
pub(crate) fn first_wrong_group(
    alloc: Global,
    book: &mut Book,
    rows: &[Row],
) -> Result<Option<usize>, Fail> {
    for (before, row) in rows.iter().enumerate() {
        if !is_defined(alloc, book, row)? {
            return Ok(Some(before));
        }
    }
    Ok(None)
}

#[test]
fn a_group_is_defined_or_refused(rt: HostRuntime) -> Result<(), Fail> {
    let mut book = Book::new(rt.alloc(), 2);
    assert_eq!(rt; first_wrong_group(rt.alloc(), &mut book, &GROUPS)?, None);
    Ok(())
}
