// Books: what becomes of samples, and the members of groups. Each table is lent to one function that tells the first row that isn't so.
ghost use Rattle.std.specs.Prelude.{IfOk};
ghost use Rattle.group_sample.specs.Samples.{AreRows};

use crate::books::{Row, first_wrong_group};
use crate::shown::{Bench, analysis};
use group_core::{Book, PutAnswer, Sample};
use rel_lexer::Text;
use std::alloc::Global;
use std::test::Fail;

/// A computer, the number of its sample, the properties of which that has rows, how many of them change the table, and the members of the
/// groups of `NAMES` then.
type Put = (&'static str, u64, &'static [u8], u32, &'static [u8]);

const WORLD: &[u8] = b"world\nname pc1\nsystem 1 Debian\noffset 0\nmoment 0\nend\n";

const NAMES: [&'static str; 5] = ["has", "any", "lacks", "error", "both"];

const GROUPS_BEFORE: [Row; 2] = [
    (b"group has\nmatch all\nhas a 1\nend\n", "ok"),
    (b"group any\nmatch any\nhas a 2\nerror a\nend\n", "ok"),
];

const PUTS_BEFORE: [Put; 4] = [
    (
        "c2",
        2,
        b"analysis\nproperty a 0 1\nend\n",
        1,
        b"c2 //-/-/-/",
    ),
    (
        "c2",
        1,
        b"analysis\nproperty a 0 2\nend\n",
        0,
        b"c2 //-/-/-/",
    ),
    (
        "c2",
        2,
        b"analysis\nproperty a 0 2\nend\n",
        0,
        b"c2 //-/-/-/",
    ),
    (
        "c10",
        1,
        b"analysis\nproperty a 0 (1; 2)\nend\n",
        1,
        b"c10 c2 /c10 /-/-/-/",
    ),
];

const GROUPS_THEN: [Row; 3] = [
    (b"group lacks\nmatch all\nlacks a 1\nend\n", "ok"),
    (b"group error\nmatch all\nerror a\nend\n", "ok"),
    (b"group both\nmatch all\nhas a 1\nhas a 2\nend\n", "ok"),
];

const PUTS_THEN: [Put; 5] = [
    (
        "c1",
        1,
        b"analysis\nproperty a 0 2\nend\n",
        1,
        b"c10 c2 /c1 c10 /c1 //c10 /",
    ),
    (
        "c2",
        3,
        b"analysis\nproperty a 0 (1; 1/0)\nend\n",
        1,
        b"c10 c2 /c1 c10 c2 /c1 /c2 /c10 /",
    ),
    (
        "c10",
        2,
        b"analysis\nproperty a 0 1/0\nend\n",
        1,
        b"c2 /c1 c10 c2 /c1 c10 /c10 c2 //",
    ),
    (
        "c1",
        2,
        b"analysis\nproperty b 0 1\nend\n",
        1,
        b"c2 /c1 c10 c2 /c1 c10 /c10 c2 //",
    ),
    (
        "c3",
        1,
        b"analysis\nproperty b 0 1\nproperty c 0 1\nend\n",
        2,
        b"c2 /c1 c10 c2 /c1 c10 /c10 c2 //",
    ),
];

const REPLACED: [Row; 1] = [(b"group has\nmatch all\nhas b 1\nend\n", "ok")];

const PUTS_AT_LAST: [Put; 1] = [(
    "c3",
    1,
    b"analysis\nproperty b 0 1\nend\n",
    0,
    b"c1 c3 /c1 c10 c2 /c1 c10 /c10 c2 //",
)];

/// A sample of a computer, with rows of these properties, as the bench has them.
fn sample(alloc: Global, bench: &mut Bench, put: &Put) -> Result<Sample, Fail>
    ensures { IfOk result (λ sample. AreRows sample.rows) }
{
    let analysis = analysis(alloc, put.2)?;
    let mut sample = bench.sample(alloc, &analysis, 0)?;
    sample.computer = Text::from_str(alloc, put.0)?;
    sample.seq = put.1;
    Ok(sample)
}

/// The names of members, with a space behind each, or `-` where no such group is kept.
fn show(text: &mut Vec<u8>, members: Option<&[Text]>) -> Result<(), Fail> {
    let Some(members) = members else {
        text.push(b'-')?;
        return Ok(());
    };
    for member in members {
        text.extend_from_slice(member.as_str().as_bytes())?;
        text.push(b' ')?;
    }
    Ok(())
}

/// The members of these groups, with a stroke behind those of each.
fn members(alloc: Global, book: &Book, names: &[&'static str]) -> Result<Vec<u8>, Fail> {
    let mut text = Vec::new(alloc);
    for name in names {
        let name = Text::from_str(alloc, *name)?;
        show(&mut text, book.members(&name))?;
        text.push(b'/')?;
    }
    Ok(text)
}

/// How many rows of a sample change the table.
fn changed(alloc: Global, book: &mut Book, bench: &mut Bench, put: &Put) -> Result<u32, Fail> {
    let sample = sample(alloc, bench, put)?;
    match book.put(&sample) {
        PutAnswer::Changed(count) => Ok(count),
        PutAnswer::Memory => Err("no memory".into()),
    }
}

/// Whether a sample changes so many rows, and the groups have these members then.
fn is_put(alloc: Global, book: &mut Book, bench: &mut Bench, put: &Put) -> Result<bool, Fail> {
    if changed(alloc, book, bench, put)? != put.3 {
        return Ok(false);
    }
    Ok(members(alloc, book, &NAMES)?.as_slice() == put.4)
}

fn first_wrong_put(
    alloc: Global,
    book: &mut Book,
    bench: &mut Bench,
    puts: &[Put],
) -> Result<Option<usize>, Fail> {
    for (before, put) in puts.iter().enumerate() {
        if !is_put(alloc, book, bench, put)? {
            return Ok(Some(before));
        }
    }
    Ok(None)
}

/// Whether groups are defined so, and then these samples are put so.
fn is_stage(
    alloc: Global,
    book: &mut Book,
    bench: &mut Bench,
    groups: &[Row],
    puts: &[Put],
) -> Result<bool, Fail> {
    if first_wrong_group(alloc, book, groups)?.is_some() {
        return Ok(false);
    }
    Ok(first_wrong_put(alloc, book, bench, puts)?.is_none())
}

/// The first of the stages that isn't so.
fn first_wrong_stage(
    alloc: Global,
    book: &mut Book,
    bench: &mut Bench,
) -> Result<Option<u8>, Fail> {
    if !is_stage(alloc, book, bench, &GROUPS_BEFORE, &PUTS_BEFORE)? {
        return Ok(Some(1));
    }
    if !is_stage(alloc, book, bench, &GROUPS_THEN, &PUTS_THEN)? {
        return Ok(Some(2));
    }
    if !is_stage(alloc, book, bench, &REPLACED, &PUTS_AT_LAST)? {
        return Ok(Some(3));
    }
    Ok(None)
}

/// The same, of a new book and a new bench.
fn wrong_stage(alloc: Global) -> Result<Option<u8>, Fail> {
    let mut bench = Bench::new(alloc, WORLD, &[])?;
    let mut book = Book::new(alloc, 5);
    first_wrong_stage(alloc, &mut book, &mut bench)
}

#[test]
fn the_newest_rows_tell_the_members_of_groups(rt: HostRuntime) -> Result<(), Fail> {
    assert_eq!(rt; wrong_stage(rt.alloc())?, None);
    Ok(())
}
