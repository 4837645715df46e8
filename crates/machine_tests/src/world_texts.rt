// Worlds and the numbers of their first bad lines. The rows behind a head were written by hand, by the rules of the format; the
// worlds of the table were made and judged by programs outside this repository.
use crate::judged_worlds::WORLDS;
use line_forms::read_name;
use std::alloc::Global;
use std::mem::drop;
use std::test::Fail;
use world_text::{WorldError, read_named_world, read_world, world_front};

/// The number of the first bad line, 0 where there is none.
fn bad_line(alloc: Global, text: &[u8]) -> u32 {
    match read_world(alloc, text) {
        Ok(world) => {
            drop(world);
            0
        }
        Err(WorldError::BadLine(number)) => number,
        Err(WorldError::Memory) => u32::MAX,
    }
}

#[test]
fn heads_have_five_lines(rt: HostRuntime) {
    let rows = [
        ("", 1),
        ("world", 1),
        ("worlds\n", 1),
        ("world\n", 2),
        ("world\nname a b\n", 2),
        ("world\nsystem 1 x\n", 2),
        ("world\nname a\nsystem 1\n", 3),
        ("world\nname a\nsystem 1.2.3.4.5 x\n", 3),
        ("world\nname a\nsystem 1 x\noffset -0\n", 4),
        ("world\nname a\nsystem 1 x\noffset 841\n", 4),
        ("world\nname a\nsystem 1 x\noffset 0\nmoment 00\n", 5),
        ("world\nname a\nsystem 1 x\noffset 0\nmoment 0\n", 6),
        ("world\nname a\nsystem 1 x\noffset 0\nmoment 0\nend", 6),
        ("world\nname a\nsystem 1 x\noffset 0\nmoment 0\nend\n", 0),
        ("world\nname a\nsystem 1 x\noffset 0\nmoment 0\nend\n\n", 7),
        ("world\nname a\nsystem 1 x\noffset 0\nmoment 0\nend\nx", 7),
    ];
    for (text, number) in rows {
        assert_eq!(rt; bad_line(rt.alloc(), text.as_bytes()), number);
    }
}

/// Worlds behind a head of five lines, each with the number of its first bad line, 0 where there is none.
const ROWS: [(&str, u32); 28] = [
    ("folder /\nend\n", 6),
    ("file 0 /\nend\n", 6),
    ("folder /a\nfolder /a\nend\n", 7),
    ("folder /a\nfolder a\nend\n", 0),
    ("file 0 /a/b\nfolder /a\nend\n", 6),
    ("folder /a\nfile 0 /a/b\n| x\n|\n| y\nend\n", 0),
    ("folder /a\nfile 0 /a/b\n| \nend\n", 8),
    ("| x\nend\n", 6),
    ("file 0 a\nfolder a/b\nend\n", 7),
    ("file 00 q\nend\n", 6),
    ("file 137438953473 q\nend\n", 6),
    ("folde /b\nend\n", 6),
    ("folder  a\nend\n", 0),
    ("folder a/\nend\n", 6),
    ("package 1.2 a\npackage 1 a\nend\n", 7),
    ("package 1.4294967296 q\nend\n", 6),
    ("process sh\nprocess sh\nend\n", 7),
    ("process \nend\n", 6),
    ("setting 0 a b\nsetting 1 a c\nend\n", 7),
    ("setting 0 a\nend\n", 6),
    ("setting 0 a  b\nend\n", 0),
    ("program 1000001 0 q\nend\n", 6),
    ("program 0 256 q\nend\n", 6),
    ("program 0 255 q\nprogram 1 1 q\nend\n", 7),
    ("program 0 0 q\ngives 1 p\ngives 2 p\nend\n", 0),
    ("gives 1 p\nend\n", 6),
    ("program 0 0 q\nprocess p\ngives 1 p\nend\n", 8),
    ("program 0 0 q\n| x\nend\n", 7),
];

/// The number of the first bad line behind a head, 0 where there is none.
fn bad_row(alloc: Global, rows: &str) -> Option<u32> {
    let text = format!(in alloc; "world\nname a\nsystem 1 x\noffset 0\nmoment 0\n{rows}").ok()?;
    Some(bad_line(alloc, text.as_bytes()))
}

#[test]
fn rows_have_their_forms(rt: HostRuntime) {
    for (text, number) in ROWS {
        assert_eq!(rt; bad_row(rt.alloc(), text), Some(number));
    }
}

#[test]
fn worlds_of_the_table(rt: HostRuntime) -> Result<(), Fail> {
    let mut parts = WORLDS.split(|byte| *byte == 0);
    for n in 0..40 {
        let number = parts.next().ok_or("no number")?;
        let text = parts.next().ok_or("no text")?;
        let byte = number.first().ok_or("no byte")?;
        let found = bad_line(rt.alloc(), text);
        assert_eq!(rt; u32::from(*byte), found.saturating_add(48), "world {n}");
    }
    Ok(())
}

/// A world of the name `a`, and a line behind it.
const LONGER: &[u8] = b"world\nname a\nsystem 1 x\noffset 0\nmoment 0\nend\nabove\nend\n";

/// The number of the first bad line of that world, where its name is to be this one.
fn bad_name(alloc: Global, name: &str) -> Option<u32> {
    let name = read_name(name.as_bytes())?;
    match read_named_world(alloc, name, world_front(LONGER).world) {
        Ok(world) => {
            drop(world);
            Some(0)
        }
        Err(WorldError::BadLine(number)) => Some(number),
        Err(WorldError::Memory) => None,
    }
}

#[test]
fn a_world_has_its_front_and_its_name(rt: HostRuntime) {
    assert_eq!(rt; world_front(LONGER).rest, b"above\nend\n".as_slice());
    assert_eq!(rt; bad_name(rt.alloc(), "a"), Some(0));
    assert_eq!(rt; bad_name(rt.alloc(), "b"), Some(2));
}
