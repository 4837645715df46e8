// What is printed of conversations and written to the peers, by hand from the rules in docs/HTTP.md.
use desk_base::{Bytes, MemorySink};
use desk_door::MemoryDoor;
use desk_keep::MemoryKeeper;
use desk_serve::{Stop, serve};
use server_core::{Limits, Server};
use std::alloc::Global;
use std::test::Fail;

/// What each peer says, and what is written to it.
const TALKS: [(&str, &str); 4] = [
    (
        "GET /sites HTTP/1.1\r\nHost: desk\r\n\r\n",
        "HTTP/1.1 200 OK\r\nContent-Length: 0\r\nConnection: close\r\n\r\n",
    ),
    ("", ""),
    (
        "GET /sites HTTP/1.1\r\n\r\n",
        "HTTP/1.1 400 Bad Request\r\nContent-Length: 12\r\nConnection: close\r\n\r\nbad request\n",
    ),
    ("GET /sites HTTP/1.1\r\nHost: desk\r\n\r\n", ""),
];

/// A door with these peers. Its tenth call fails, which reads what the last one says.
fn door(alloc: Global) -> Result<MemoryDoor, Fail> {
    let mut said = Vec::new(alloc);
    for (text, _) in TALKS {
        said.push(Bytes::from_slice(alloc, text.as_bytes())?)?;
    }
    Ok(MemoryDoor::new(alloc, said, [10].to_vec(alloc)?))
}

/// Serves one conversation more than there are peers, so that the door ends the run.
fn serve_all(alloc: Global, door: &mut MemoryDoor, sink: &mut MemorySink) -> bool {
    let server = Server::new(Limits::of_the_desk());
    let mut keeper = MemoryKeeper::new(alloc, Vec::new(alloc), Vec::new(alloc));
    matches!(
        serve(alloc, &server, door, &mut keeper, sink, 5),
        Err(Stop::Door)
    )
}

#[test]
fn conversations_are_served(rt: HostRuntime) -> Result<(), Fail> {
    let alloc = rt.alloc();
    let mut door = door(alloc)?;
    let mut sink = MemorySink::new(alloc, Vec::new(alloc));
    assert!(rt; serve_all(alloc, &mut door, &mut sink));
    assert_eq!(rt;
        sink.as_slice(),
        b"answered 200\nclosed\nanswered 400\ndoor fault\n".as_slice()
    );
    assert_eq!(rt; door.written().len(), 4);
    for (written, (_, wanted)) in door.written().iter().zip(TALKS) {
        assert_eq!(rt; written.as_slice(), wanted.as_bytes());
    }
    Ok(())
}
