// What a server answers over HTTP, one row each, by hand from the rules in docs/HTTP.md.
use crate::called::{ABC, OTHER, REPORT, Row, first_unanswered};
use desk_hosts::{Asking, Paths, ServerHost};
use desk_keep::MemoryKeeper;
use server_core::{Limits, Server};
use std::alloc::Global;
use std::test::Fail;

const ROWS: [Row; 16] = [
    (Asking::Get, "/sites", "", 200, ""),
    (Asking::Get, "/nothing", "", 404, "no such\n"),
    (Asking::Post, "/nothing", "", 404, "no such\n"),
    (Asking::Get, "/sites/desk/01", "", 404, "no such\n"),
    (Asking::Get, "/sites/desk/0", "", 404, "no such\n"),
    (Asking::Post, "/sites", "sit desk 1", 400, "bad text 1\n"),
    (Asking::Post, "/actions", "", 400, "bad text 1\n"),
    (Asking::Post, "/actions/8/stop", "", 404, "no such\n"),
    (Asking::Get, ABC, "", 404, "no such\n"),
    (
        Asking::Post,
        "/files",
        "abc",
        200,
        "ok ba7816bf8f01cfea414140de5dae2223b00361a396177a9cb410ff61f20015ad\n",
    ),
    (Asking::Get, ABC, "a body that nobody looks at", 200, "abc"),
    (Asking::Get, "/results/pc1", "", 404, "no such\n"),
    (Asking::Post, "/reports", REPORT, 200, "ok\n"),
    (Asking::Post, "/reports", REPORT, 200, "again\n"),
    (
        Asking::Post,
        "/reports",
        OTHER,
        409,
        "conflict ca8a7375b560d8fb822012ab1e72147b172b6f77ade2ee68d8ff63bfaf69806e\n",
    ),
    (
        Asking::Get,
        "/results/pc1",
        "",
        200,
        "7 1 fixed 1000 1010 - - - 1\n",
    ),
];

/// A keeper's fault, and the report again.
const FAULT: [Row; 3] = [
    (Asking::Post, "/reports", REPORT, 500, "keeper fault\n"),
    (Asking::Post, "/reports", REPORT, 200, "ok\n"),
    (Asking::Post, "/reports", REPORT, 200, "again\n"),
];

/// How many rows before the first call that a server doesn't answer so, where these applies of its keeper fail.
fn first_unserved(alloc: Global, applies: Vec<u32>, rows: &[Row]) -> Option<usize> {
    let paths = Paths::new(alloc);
    let server = Server::new(Limits::of_the_desk());
    let mut keeper = MemoryKeeper::new(alloc, applies, Vec::new(alloc));
    let mut host = ServerHost {
        alloc,
        paths: &paths,
        server: &server,
        keeper: &mut keeper,
    };
    first_unanswered(&mut host, rows)
}

#[test]
fn a_server_answers_as_the_table_says(rt: HostRuntime) -> Result<(), Fail> {
    let alloc = rt.alloc();
    assert_eq!(rt; first_unserved(alloc, Vec::new(alloc), &ROWS), None);
    Ok(())
}

#[test]
fn a_fault_of_the_keeper_is_told(rt: HostRuntime) -> Result<(), Fail> {
    let alloc = rt.alloc();
    assert_eq!(rt; first_unserved(alloc, vec![in alloc; 1u32]?, &FAULT), None);
    Ok(())
}
