// What the keeper in memory is asked, call by call, and what it answers.
use crate::rows::{Plain, SOME_ROWS, count_line, found, list_line, opened, put};
use desk_keep::{Keeper, MemoryKeeper, Table};
use rel_lexer::Text;
use std::alloc::Global;
use std::test::Fail;

/// A call of a keeper.
#[derive(Clone, Copy)]
enum Call {
    Open,
    Put(&'static [Plain]),
    Count(Table),
    List(Table),
    Versions,
    Results(&'static str),
    Get(Table, &'static str, u64),
}

/// Calls of a new keeper, one after another, each with what is answered. The applies and the reading calls with these numbers fail.
struct Talk {
    applies: &'static [u32],
    reads: &'static [u32],
    rows: &'static [(Call, &'static str)],
}

/// A name that is longer than any.
const LONG: &str = "a12345678901234567890123456789012345678901234567890123456789012345";

const OLD: [Plain; 2] = [(Table::Sites, "desk", 1, 0), (Table::Results, "pc1", 7, 1)];

const NEW: [Plain; 2] = [(Table::Sites, "desk", 2, 0), (Table::Results, "pc1", 8, 2)];

/// Worked out by hand. The first talk lists the tables and finds rows by their keys; in the second listed calls fail, and leave the rows.
const TALKS: [Talk; 2] = [
    Talk {
        applies: &[],
        reads: &[],
        rows: &[
            (Call::Put(&SOME_ROWS), "done"),
            (Call::Count(Table::Sites), "2"),
            (
                Call::List(Table::Sites),
                "site actionsite 1 of 10, site desk 2 of 4, ",
            ),
            (Call::Versions, "site actionsite 1 of 0, site desk 2 of 0, "),
            (Call::Count(Table::Actions), "2"),
            (
                Call::List(Table::Actions),
                "action 9 of 4, action 10 of 3, ",
            ),
            (Call::Count(Table::Files), "2"),
            (Call::List(Table::Files), "file 11 of 0, file 202 of 3, "),
            (Call::Count(Table::Computers), "2"),
            (
                Call::List(Table::Computers),
                "computer pc10, computer pc2, ",
            ),
            (Call::Count(Table::Reports), "2"),
            (
                Call::List(Table::Reports),
                "report pc2 9 202, report pc2 10 202, ",
            ),
            (Call::Count(Table::Results), "3"),
            (
                Call::Results("pc2"),
                "result pc2 3 2 from 1 failed 1060 -3 0 9, result pc2 7 2 from 1 failed 1060 -3 0 9, ",
            ),
            (Call::Results("pc"), ""),
            (Call::Get(Table::Sites, "desk", 0), "site desk 2 of 4"),
            (Call::Get(Table::Sites, "des", 0), "nothing"),
            (Call::Get(Table::Sites, LONG, 0), "nothing"),
            (Call::Get(Table::Actions, "", 10), "action 10 of 3"),
            (Call::Get(Table::Actions, "", 0), "nothing"),
            (Call::Get(Table::Files, "", 11), "file 11 of 0"),
            (Call::Get(Table::Files, "", 0), "nothing"),
            (Call::Get(Table::Computers, "pc2", 0), "computer pc2"),
            (Call::Get(Table::Computers, "desk", 0), "nothing"),
            (Call::Get(Table::Reports, "pc2", 9), "report pc2 9 202"),
            (Call::Get(Table::Reports, "pc2", 8), "nothing"),
            (
                Call::Get(Table::Results, "pc10", 7),
                "result pc10 7 2 from 2 failed 1060 -3 0 9",
            ),
            (Call::Get(Table::Results, "pc1", 7), "nothing"),
        ],
    },
    Talk {
        applies: &[1, 3],
        reads: &[1, 3],
        rows: &[
            (Call::Put(&OLD), "failed"),
            (Call::Put(&OLD), "done"),
            (Call::Put(&NEW), "failed"),
            (Call::Open, "failed"),
            (Call::Count(Table::Results), "1"),
            (Call::List(Table::Sites), "failed"),
            (Call::List(Table::Sites), "site desk 1 of 4, "),
            (Call::Open, "done"),
            (Call::Put(&NEW), "done"),
            (Call::Count(Table::Results), "2"),
        ],
    },
];

/// What a call is answered, as a line.
fn answered<K: Keeper>(alloc: Global, keeper: &mut K, call: Call) -> Result<String, Fail> {
    match call {
        Call::Open => opened(alloc, keeper),
        Call::Put(plain) => put(alloc, keeper, plain),
        Call::Count(table) => count_line(alloc, &keeper.count(table)),
        Call::List(table) => list_line(alloc, &keeper.list(table)),
        Call::Versions => list_line(alloc, &keeper.versions()),
        Call::Results(computer) => results(alloc, keeper, computer),
        Call::Get(table, name, number) => found(alloc, keeper, table, name, number),
    }
}

/// The results of a computer.
fn results<K: Keeper>(alloc: Global, keeper: &mut K, computer: &str) -> Result<String, Fail> {
    let computer = Text::from_str(alloc, computer)?;
    list_line(alloc, &keeper.results(&computer))
}

/// The number of the first row that is answered otherwise, from 0.
fn differs<K: Keeper>(
    alloc: Global,
    keeper: &mut K,
    rows: &[(Call, &'static str)],
) -> Result<Option<usize>, Fail> {
    for (at, (call, wanted)) in rows.iter().enumerate() {
        if answered(alloc, keeper, *call)?.as_str() != *wanted {
            return Ok(Some(at));
        }
    }
    Ok(None)
}

/// The same of a new keeper.
fn talk_differs(alloc: Global, talk: &Talk) -> Result<Option<usize>, Fail> {
    let applies = Vec::from_slice(alloc, talk.applies)?;
    let reads = Vec::from_slice(alloc, talk.reads)?;
    let mut keeper = MemoryKeeper::new(alloc, applies, reads);
    differs(alloc, &mut keeper, talk.rows)
}

#[test]
fn calls_are_answered(rt: HostRuntime) -> Result<(), Fail> {
    let alloc = rt.alloc();
    for talk in &TALKS {
        assert_eq!(rt; talk_differs(alloc, talk)?, None);
    }
    Ok(())
}
