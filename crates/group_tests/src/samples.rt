// Samples of analysts: what is measured, and when. The rows were written by hand, by the rules of properties and questions. Each table is
// lent to one function that tells the first row that isn't so.
ghost use Rattle.desk_base.specs.Moments.{IsMoment};

use crate::shown::{Bench, analysis, text_of};
use group_sample::Sample;
use std::alloc::Global;
use std::test::Fail;

const WORLD: &[u8] =
    b"world\nname pc1\nsystem 12.4 Debian\noffset 0\nmoment 1000\nfolder /etc\nfile 5 /etc/conf\n| a\n| b\npackage 1.1 agentd\nend\n";

/// The first sample of the properties in a text, on a machine of which these looks fail.
fn first_sample(alloc: Global, text: &[u8], fails: &[u32]) -> Result<Sample, Fail> {
    let analysis = analysis(alloc, text)?;
    let mut bench = Bench::new(alloc, WORLD, fails)?;
    bench.sample(alloc, &analysis, 1000)
}

/// A text of properties, the looks that fail, and the sample as a text.
type Row = (&'static [u8], &'static [u32], &'static [u8]);

const ROWS: [Row; 12] = [
    (
        b"analysis\nproperty agent 3600 versions of packages \"agentd\"\nend\n",
        &[],
        b"agent|1.1|\n0",
    ),
    (
        b"analysis\nproperty a 0 1\nproperty b 0 (2; 3)\nend\n",
        &[],
        b"a|1|\nb|2|3|\n0",
    ),
    (
        b"analysis\nproperty a 0 names of packages \"x\"\nend\n",
        &[],
        b"a|\n0",
    ),
    (
        b"analysis\nproperty a 0 name of package \"x\"\nend\n",
        &[],
        b"a|!\n0",
    ),
    (
        b"analysis\nproperty a 0 (1; 2; 1/0)\nend\n",
        &[],
        b"a|1|2|!\n0",
    ),
    (b"analysis\nproperty a 0 (1/0; 2)\nend\n", &[], b"a|!\n0"),
    (
        b"analysis\nproperty a 0 lines of file \"/etc/conf\"\nend\n",
        &[],
        b"a|a|b|\n0",
    ),
    (
        b"analysis\nproperty a 0 \"a%0ab\"\nend\n",
        &[],
        b"a|a\nb|\n0",
    ),
    (
        b"analysis\nproperty a 0 now\nend\n",
        &[],
        b"a|Thu, 01 Jan 1970 00:16:40 +0000|\n0",
    ),
    (
        b"analysis\nproperty a 0 versions of packages \"agentd\"\nproperty b 0 1\nend\n",
        &[1],
        b"b|1|\n1",
    ),
    (
        b"analysis\nproperty a 0 versions of packages \"agentd\"\nend\n",
        &[1],
        b"1",
    ),
    (
        b"analysis\nproperty a 0 (1; (number of packages))\nend\n",
        &[1],
        b"1",
    ),
];

/// Whether the first sample of a row is so, and so is a copy of it.
fn is_sampled(alloc: Global, row: &Row) -> Result<bool, Fail> {
    let (text, fails, wanted) = *row;
    let copy = first_sample(alloc, text, fails)?.copy()?;
    Ok(text_of(alloc, &copy)?.as_slice() == wanted && copy.seq == 1)
}

fn first_wrong_sample(alloc: Global, rows: &[Row]) -> Result<Option<usize>, Fail> {
    for (before, row) in rows.iter().enumerate() {
        if !is_sampled(alloc, row)? {
            return Ok(Some(before));
        }
    }
    Ok(None)
}

#[test]
fn each_due_property_has_its_row_or_has_failed(rt: HostRuntime) -> Result<(), Fail> {
    assert_eq!(rt; first_wrong_sample(rt.alloc(), &ROWS)?, None);
    Ok(())
}

/// The number of the sample that is taken at the second moment, after one at the first, 0 if there is none.
fn second_number(alloc: Global, text: &[u8], first: i64, second: i64) -> Result<u64, Fail>
    requires first { IsMoment first }
    requires second { IsMoment second }
{
    let analysis = analysis(alloc, text)?;
    let mut bench = Bench::new(alloc, WORLD, &[])?;
    bench.second_number(alloc, &analysis, first, second)
}

#[test]
fn a_property_is_due_when_its_period_is_over(rt: HostRuntime) -> Result<(), Fail> {
    let alloc = rt.alloc();
    let hour = b"analysis\nproperty a 3600 1\nend\n".as_slice();
    let always = b"analysis\nproperty a 0 1\nend\n".as_slice();
    let longest = b"analysis\nproperty a 2147483648 1\nend\n".as_slice();
    assert_eq!(rt; second_number(alloc, hour, 1000, 4599)?, 0);
    assert_eq!(rt; second_number(alloc, hour, 1000, 4600)?, 2);
    assert_eq!(rt; second_number(alloc, hour, 4600, 1000)?, 0);
    assert_eq!(rt; second_number(alloc, always, 100, 100)?, 2);
    assert_eq!(rt; second_number(alloc, always, 100, 50)?, 0);
    assert_eq!(rt; second_number(alloc, longest, 0, 2_147_483_647)?, 0);
    assert_eq!(rt; second_number(alloc, longest, 0, 2_147_483_648)?, 2);
    Ok(())
}

/// A text of one property, how many values its row has, and whether it has an error.
type Bound = (&'static [u8], usize, bool);

/// A text of eight bytes stands 128 times in 1,024.
const BOUNDS: [Bound; 8] = [
    (
        b"analysis\nproperty a 0 integers in (1, 100)\nend\n",
        100,
        false,
    ),
    (
        b"analysis\nproperty a 0 integers in (1, 101)\nend\n",
        100,
        false,
    ),
    (
        b"analysis\nproperty a 0 (integers in (1, 100); 1/0)\nend\n",
        100,
        false,
    ),
    (
        b"analysis\nproperty a 0 (integers in (1, 99); 1/0)\nend\n",
        99,
        true,
    ),
    (
        b"analysis\nproperty a 0 (integers in (1, 99); 1; 1/0)\nend\n",
        100,
        false,
    ),
    (
        b"analysis\nproperty a 0 concatenation of (\"12345678\") of integers in (1, 128)\nend\n",
        1,
        false,
    ),
    (
        b"analysis\nproperty a 0 concatenation of (\"12345678\") of integers in (1, 128) & \"9\"\nend\n",
        0,
        true,
    ),
    (
        b"analysis\nproperty a 0 (\"a\"; concatenation of (\"12345678\") of integers in (1, 129); \"b\")\nend\n",
        1,
        true,
    ),
];

/// Whether the row of a property has so many values, and an error or not.
fn is_bounded(alloc: Global, bound: &Bound) -> Result<bool, Fail> {
    let (text, count, error) = *bound;
    let sample = first_sample(alloc, text, &[])?;
    match sample.rows.as_slice().first() {
        Some(row) => Ok(row.values.as_slice().len() == count && row.error == error),
        None => Ok(false),
    }
}

fn first_wrong_bound(alloc: Global, bounds: &[Bound]) -> Result<Option<usize>, Fail> {
    for (before, bound) in bounds.iter().enumerate() {
        if !is_bounded(alloc, bound)? {
            return Ok(Some(before));
        }
    }
    Ok(None)
}

#[test]
fn a_row_has_bounds(rt: HostRuntime) -> Result<(), Fail> {
    assert_eq!(rt; first_wrong_bound(rt.alloc(), &BOUNDS)?, None);
    Ok(())
}
