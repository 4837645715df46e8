// Office texts and the numbers of their first bad lines, 0 where there is none. The rows were written by hand, by the rules of the
// format.
use office_text::{OfficeError, read_office};
use std::alloc::Global;
use std::mem::drop;
use std::test::Fail;

/// The number of the first bad line, 0 where there is none.
fn bad_line(alloc: Global, text: &[u8]) -> u32 {
    match read_office(alloc, text) {
        Ok(orders) => {
            drop(orders);
            0
        }
        Err(OfficeError::BadLine(number)) => number,
        Err(OfficeError::Memory) => u32::MAX,
    }
}

#[test]
fn an_office_begins_and_ends(rt: HostRuntime) {
    let rows = [
        ("", 1),
        ("office", 1),
        ("offices\n", 1),
        (" office\nend\n", 1),
        ("office\n", 2),
        ("office\nend", 2),
        ("office\nend\n", 0),
        ("office\nend\n\n", 3),
        ("office\nend\nx", 3),
        ("office\n\nend\n", 2),
        ("office\noffice\nend\n", 2),
        ("office\nend \n", 2),
    ];
    for (text, number) in rows {
        assert_eq!(rt; bad_line(rt.alloc(), text.as_bytes()), number);
    }
}

/// The text of an office with a relay `r`, the computer `c`, and then these lines.
fn with_computer(alloc: Global, lines: &[u8]) -> Result<Vec<u8>, Fail> {
    let mut text = Vec::new(alloc);
    text.extend_from_slice(b"office\nrelay r\ncomputer c r\n")?;
    text.extend_from_slice(b"world\nname c\nsystem 1 x\noffset 0\nmoment 0\nend\n")?;
    text.extend_from_slice(lines)?;
    Ok(text)
}

/// Lines behind a relay `r` and a computer `c`, each with the number of the first bad line of the whole.
const LINES: [(&str, u32); 48] = [
    ("stop 1\nend\n", 0),
    ("stop 9007199254740992\nend\n", 0),
    ("stop 9007199254740993\nend\n", 10),
    ("stop 0\nend\n", 10),
    ("stop\nend\n", 10),
    ("stop 1 \nend\n", 10),
    ("stop  1\nend\n", 10),
    ("stop 1 2\nend\n", 10),
    ("Stop 1\nend\n", 10),
    ("relay r\nend\n", 10),
    ("relay c\nend\n", 0),
    ("relay server\nrelay s\nend\n", 0),
    ("relay a b\nend\n", 10),
    ("relay \nend\n", 10),
    ("gather r\nend\n", 0),
    ("gather c\nend\n", 10),
    ("gather s\nrelay s\nend\n", 10),
    ("turn c 0\nend\n", 0),
    ("turn c 137438953473\nend\n", 10),
    ("turn c 01\nend\n", 10),
    ("turn c -1\nend\n", 10),
    ("turn c\nend\n", 10),
    ("turn r 0\nend\n", 10),
    ("restart c\nend\n", 0),
    ("restart r\nend\n", 10),
    ("send c 18446744073709551615\nsend c 0\nend\n", 0),
    ("send c 18446744073709551616\nend\n", 10),
    ("send 1 c\nend\n", 10),
    ("push r\nend\n", 0),
    ("push x\nend\n", 10),
    ("deliver 18446744073709551615\ndeliver 0\nend\n", 0),
    ("deliver 00\nend\n", 10),
    ("deliver\nend\n", 10),
    ("report c\nend\n", 0),
    ("report x\nend\n", 10),
    ("forward r\nend\n", 0),
    ("forward c\nend\n", 10),
    ("forget r\nend\n", 0),
    ("forget\nend\n", 10),
    ("members g\nend\n", 0),
    ("members g/h\nend\n", 10),
    ("members\nend\n", 10),
    ("measure c 1\nend\n", 0),
    ("measure r 1\nend\n", 10),
    ("measure c 137438953473\nend\n", 10),
    ("measure c\nend\n", 10),
    ("# a remark\nend\n", 10),
    ("gather r\ngather r", 11),
];

#[test]
fn words_have_their_fields(rt: HostRuntime) -> Result<(), Fail> {
    for (lines, number) in LINES {
        let text = with_computer(rt.alloc(), lines.as_bytes())?;
        assert_eq!(rt; bad_line(rt.alloc(), text.as_slice()), number);
    }
    Ok(())
}

/// Lines of an office behind its first, each with the number of the first bad line of the whole.
const TEXTS: [(&[u8], u32); 22] = [
    (b"publish\ndigest \nend\n", 0),
    (b"publish\nx\n\xff\n\nend\ndigest\ndigest x\nend\n", 0),
    (b"publish\nx\nend\n", 5),
    (b"publish\nx\nend", 4),
    (b"publish \ndigest x\nend\n", 2),
    (b"act\nend\nend\n", 0),
    (b"act\n\xff\n\nend \nend\nend\n", 0),
    (b"act\nstop 1\nend\n", 5),
    (b"act\nend\n", 4),
    (b"act x\nend\nend\n", 2),
    (b"file\nend\nend\n", 0),
    (b"file\n| a\n|\n|  b\nend\nend\n", 0),
    (b"file\n| a\n| \nend\nend\n", 4),
    (b"file\n| a\n\nend\nend\n", 4),
    (b"file\n| \xff\nend\nend\n", 3),
    (b"file\nx\nend\nend\n", 3),
    (b"file\n| a\nend\n", 5),
    (b"file\n| a", 3),
    (b"relay r\ncomputer c s\nend\n", 3),
    (b"computer c r\nrelay r\nend\n", 2),
    (b"relay r\ncomputer c\nend\n", 3),
    (b"relay r\ncomputer c r x\nend\n", 3),
];

#[test]
fn texts_end_at_their_lines(rt: HostRuntime) -> Result<(), Fail> {
    for (lines, number) in TEXTS {
        let mut text = Vec::new(rt.alloc());
        text.extend_from_slice(b"office\n")?;
        text.extend_from_slice(lines)?;
        assert_eq!(rt; bad_line(rt.alloc(), text.as_slice()), number);
    }
    Ok(())
}

/// Worlds of a computer `c`, each with the number of the first bad line of the whole.
const WORLDS: [(&str, u32); 12] = [
    (
        "world\nname c\nsystem 1 x\noffset 0\nmoment 0\nend\nend\n",
        0,
    ),
    (
        "world\nname d\nsystem 1 x\noffset 0\nmoment 0\nend\nend\n",
        5,
    ),
    ("world\nname d\nsystem x\noffset 0\nmoment 0\nend\nend\n", 5),
    (
        "worlds\nname d\nsystem 1 x\noffset 0\nmoment 0\nend\nend\n",
        4,
    ),
    (
        "world\nname c\nsystem 1 x\noffset 0\nmoment 0\nfolder a\nend\nend\n",
        0,
    ),
    (
        "world\nname c\nsystem 1 x\noffset 0\nmoment 0\nfolder /\nend\nend\n",
        9,
    ),
    ("world\nname c\nsystem 1 x\noffset 0\nmoment 0\nend\n", 10),
    (
        "world\nname c\nsystem 1 x\noffset 0\nmoment 0\nfile 0 a\n| x\n",
        11,
    ),
    ("world\nname c\nsystem 1 x\noffset 0\nend\nend\n", 8),
    ("end\n", 4),
    (
        "world\nname c\nsystem 1 x\noffset 0\nmoment 0\nend\ncomputer c r\n",
        10,
    ),
    ("", 4),
];

#[test]
fn a_computer_has_a_world_of_its_name(rt: HostRuntime) -> Result<(), Fail> {
    for (lines, number) in WORLDS {
        let mut text = Vec::new(rt.alloc());
        text.extend_from_slice(b"office\nrelay r\ncomputer c r\n")?;
        text.extend_from_slice(lines.as_bytes())?;
        assert_eq!(rt; bad_line(rt.alloc(), text.as_slice()), number);
    }
    Ok(())
}

/// Analyses, groups and actions for groups, each with the number of the first bad line of the whole.
const ENTRIES: [(&str, u32); 26] = [
    ("analysis\nproperty a 0 1\nend\nend\n", 0),
    ("analysis\nproperty a 0 1\nend\n", 5),
    ("analysis\nproperty a 0 1\nproperty b -1 1\nend\nend\n", 4),
    ("analysis\nproperty a 0 1\nproperty a 0 2\nend\nend\n", 4),
    ("analysis\nproperty a 0 1\nproperty b 0 1 +\nend\nend\n", 4),
    ("analysis\nend\nend\n", 3),
    ("analysis\nproperty a 0 1\n", 4),
    ("analysis\nproperty a 0 1\nend", 4),
    ("analysis x\nproperty a 0 1\nend\nend\n", 2),
    ("analyses\nproperty a 0 1\nend\nend\n", 2),
    ("group g\nmatch all\nhas a 1\nend\nend\n", 0),
    ("group g\nmatch all\nend\nend\n", 4),
    ("group g\nmatch some\nhas a 1\nend\nend\n", 3),
    ("group g\nmatch all\nhas a 1\nhad a 1\nend\nend\n", 5),
    ("group g\nmatch all\nhas a 1\n", 5),
    ("group g/h\nmatch all\nhas a 1\nend\nend\n", 2),
    ("group\nmatch all\nhas a 1\nend\nend\n", 2),
    ("target g\ntarget all\nend\nend\n", 0),
    ("target g\nx\ntarget all\n\ntarget all\nend\nend\n", 0),
    ("target g\nx\nend\nend\n", 4),
    ("target g\nend\ntarget all\nend\nend\n", 3),
    ("target g\ntarget all \nend\nend\n", 4),
    ("target g\nx\ntarget all\n", 5),
    ("target g\nx", 3),
    ("target g h\ntarget all\nend\nend\n", 2),
    ("target\ntarget all\nend\nend\n", 2),
];

#[test]
fn entries_and_targets_end_at_their_lines(rt: HostRuntime) -> Result<(), Fail> {
    for (lines, number) in ENTRIES {
        let mut text = Vec::new(rt.alloc());
        text.extend_from_slice(b"office\n")?;
        text.extend_from_slice(lines.as_bytes())?;
        assert_eq!(rt; bad_line(rt.alloc(), text.as_slice()), number);
    }
    Ok(())
}
