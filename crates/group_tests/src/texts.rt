// Texts of analyses and groups, and the numbers of their first bad lines, 0 where there is none. The rows were written by hand, by the
// rules of the formats. Each table is lent to one function that tells the first row that isn't so.
use group_text::{GroupError, read_analysis, read_group};
use std::alloc::Global;
use std::mem::drop;
use std::test::Fail;

/// A text, and the number of its first bad line.
type Row = (&'static [u8], u32);

/// Texts of analyses.
const ANALYSES: [Row; 33] = [
    (b"", 1),
    (b"analysis", 1),
    (b"analysis \n", 1),
    (b"analysis\n", 2),
    (b"analysis\nend\n", 2),
    (b"analysis\nproperty a 0 1\nend\n", 0),
    (b"analysis\nproperty a 0 1\nend", 3),
    (b"analysis\nproperty a 0 1\n", 3),
    (b"analysis\nproperty a 0 1\nend\n\n", 4),
    (b"analysis\nproperty a 0 1\nend\nx", 4),
    (b"analysis\nproperty a 0 1\nend \n", 3),
    (b"analysis\nproperty a 2147483648 1\nend\n", 0),
    (b"analysis\nproperty a 2147483649 1\nend\n", 2),
    (b"analysis\nproperty a -1 1\nend\n", 2),
    (b"analysis\nproperty a 01 1\nend\n", 2),
    (b"analysis\nproperty a +1 1\nend\n", 2),
    (b"analysis\nproperty a 1\nend\n", 2),
    (b"analysis\nproperty a 1 \nend\n", 2),
    (b"analysis\nproperty  a 1 1\nend\n", 2),
    (b"analysis\nproperty a  1 1\nend\n", 2),
    (b"analysis\nproperty a 1  1\nend\n", 0),
    (b"analysis\nproperty a 1 1 \nend\n", 0),
    (b"analysis\nproperty a/b 1 1\nend\n", 2),
    (b"analysis\nproperty Node-2_x.y 1 1\nend\n", 0),
    (b"analysis\nproperty a 1 names of it\nend\n", 2),
    (b"analysis\nproperty a 1 foo\nend\n", 2),
    (b"analysis\nproperty a 1 1 +\nend\n", 2),
    (b"analysis\nproperty a 1 \"\xff\"\nend\n", 2),
    (b"analysis\nproperty a 1 1\nproperty a 1 1\nend\n", 3),
    (b"analysis\nproperty a 1 1\nproperty A 1 1\nend\n", 0),
    (b"analysis\nproperty a 1 1\nProperty b 1 1\nend\n", 3),
    (b"analysis\nproperty a 1 1\n\nproperty b 1 1\nend\n", 3),
    (b"analysis\nproperty end 1 \"end\"\nend\n", 0),
];

/// Texts of groups.
const GROUPS: [Row; 32] = [
    (b"", 1),
    (b"group\n", 1),
    (b"group \n", 1),
    (b"group a b\n", 1),
    (b"group a", 1),
    (b"group a\n", 2),
    (b"group a\nmatch\n", 2),
    (b"group a\nmatch one\n", 2),
    (b"group a\nmatch all \n", 2),
    (b"group a\nmatch all\n", 3),
    (b"group a\nmatch any\nend\n", 3),
    (b"group a\nmatch all\nhas b c\nend\n", 0),
    (b"group a\nmatch any\nhas b c\nend\n", 0),
    (b"group a\nmatch all\nlacks b c\nend\n", 0),
    (b"group a\nmatch all\nerror b\nend\n", 0),
    (b"group a\nmatch all\nerror b\nerror b\nend\n", 0),
    (b"group a\nmatch all\nerror b \nend\n", 3),
    (b"group a\nmatch all\nerror b c\nend\n", 3),
    (b"group a\nmatch all\nerror\nend\n", 3),
    (b"group a\nmatch all\nhas b\nend\n", 3),
    (b"group a\nmatch all\nhas b \nend\n", 3),
    (b"group a\nmatch all\nhas b  \nend\n", 0),
    (b"group a\nmatch all\nhas b c d\nend\n", 0),
    (b"group a\nmatch all\nhas  b c\nend\n", 3),
    (b"group a\nmatch all\nhas b/c d\nend\n", 3),
    (b"group a\nmatch all\nhas b \xff\nend\n", 3),
    (b"group a\nmatch all\nhad b c\nend\n", 3),
    (b"group a\nmatch all\nHas b c\nend\n", 3),
    (b"group a\nmatch all\nhas b c\nend \n", 4),
    (b"group a\nmatch all\nhas b c\nend", 4),
    (b"group a\nmatch all\nhas b c\n", 4),
    (b"group a\nmatch all\nhas b c\nend\nend\n", 5),
];

/// The number of an analysis's first bad line, 0 where there is none.
fn bad_line_of_analysis(alloc: Global, text: &[u8]) -> u32 {
    match read_analysis(alloc, text) {
        Ok(analysis) => {
            drop(analysis);
            0
        }
        Err(GroupError::BadAnalysis(number)) => number,
        Err(GroupError::BadGroup(_)) | Err(GroupError::Memory) => u32::MAX,
    }
}

/// That of a group.
fn bad_line_of_group(alloc: Global, text: &[u8]) -> u32 {
    match read_group(alloc, text) {
        Ok(group) => {
            drop(group);
            0
        }
        Err(GroupError::BadGroup(number)) => number,
        Err(GroupError::BadAnalysis(_)) | Err(GroupError::Memory) => u32::MAX,
    }
}

/// The first of these texts of analyses that isn't read so.
fn first_wrong_analysis(alloc: Global, rows: &[Row]) -> Option<usize> {
    for (before, row) in rows.iter().enumerate() {
        if bad_line_of_analysis(alloc, row.0) != row.1 {
            return Some(before);
        }
    }
    None
}

/// The first of these texts of groups that isn't.
fn first_wrong_group(alloc: Global, rows: &[Row]) -> Option<usize> {
    for (before, row) in rows.iter().enumerate() {
        if bad_line_of_group(alloc, row.0) != row.1 {
            return Some(before);
        }
    }
    None
}

#[test]
fn analyses_are_read_or_their_first_bad_line_is_told(rt: HostRuntime) {
    assert_eq!(rt; first_wrong_analysis(rt.alloc(), &ANALYSES), None);
}

#[test]
fn groups_are_read_or_their_first_bad_line_is_told(rt: HostRuntime) {
    assert_eq!(rt; first_wrong_group(rt.alloc(), &GROUPS), None);
}

/// So many lines of one kind, each with another name, between a front and `end`.
fn repeated(alloc: Global, front: &[u8], word: &[u8], count: u8) -> Result<Vec<u8>, Fail> {
    let mut text = Vec::new(alloc);
    text.extend_from_slice(front)?;
    for i in 0..count {
        text.extend_from_slice(word)?;
        text.push(b'a' + i / 26)?;
        text.push(b'a' + i % 26)?;
        text.extend_from_slice(b" 0 1\n")?;
    }
    text.extend_from_slice(b"end\n")?;
    Ok(text)
}

/// The number of the first bad line of an analysis of so many properties.
fn bad_line_of_properties(alloc: Global, count: u8) -> Result<u32, Fail> {
    let text = repeated(alloc, b"analysis\n", b"property ", count)?;
    Ok(bad_line_of_analysis(alloc, text.as_slice()))
}

/// That of a group of so many tests.
fn bad_line_of_tests(alloc: Global, count: u8) -> Result<u32, Fail> {
    let text = repeated(alloc, b"group g\nmatch all\n", b"has ", count)?;
    Ok(bad_line_of_group(alloc, text.as_slice()))
}

#[test]
fn at_most_a_hundred_lines_stand_in_a_text(rt: HostRuntime) -> Result<(), Fail> {
    let alloc = rt.alloc();
    assert_eq!(rt; bad_line_of_properties(alloc, 100)?, 0);
    assert_eq!(rt; bad_line_of_properties(alloc, 101)?, 102);
    assert_eq!(rt; bad_line_of_tests(alloc, 100)?, 0);
    assert_eq!(rt; bad_line_of_tests(alloc, 101)?, 103);
    Ok(())
}

/// Whether what a text spells is the same once copied: an analysis, whose first property is compared, and a group.
fn are_copied(alloc: Global) -> Result<bool, Fail> {
    let Ok(analysis) = read_analysis(alloc, b"analysis\nproperty a 5 1 + 1\nend\n") else {
        return Err("no analysis".into());
    };
    let Ok(group) = read_group(
        alloc,
        b"group g\nmatch any\nhas a 1\nlacks b 2\nerror c\nend\n",
    ) else {
        return Err("no group".into());
    };
    let copies = analysis.copy()?.properties.into_vec();
    let Some(property) = copies.first() else {
        return Err("no property".into());
    };
    let copy = group.copy()?;
    Ok(property.question.as_str() == "1 + 1" && property.period == 5 && copy.is(&group))
}

#[test]
fn what_was_read_is_copied(rt: HostRuntime) -> Result<(), Fail> {
    assert_eq!(rt; are_copied(rt.alloc())?, true);
    Ok(())
}
