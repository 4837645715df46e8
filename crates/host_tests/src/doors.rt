// The real door, link and pocket, at a call or two. Their rows are those of examples/doors.
use crate::machine::fresh_folder;
use agent_text::{Loaded, Pocket, SaveResult};
use desk_base::Put;
use desk_door::{Door, DoorGot, Exchanged, Link};
use file_pocket::FilePocket;
use rel_lexer::Text;
use std::io::{self, Write};
use std::mem::drop;
use std::net::{Ipv4Addr, Shutdown, TcpListener, TcpStream};
use std::process::{Command, Stdio};
use std::{fs, test};
use tcp_door::{TcpDoor, TcpLink, listen_address, seconds_between};

/// A program that says at which address it listens, and answers the first client there once it has said `hello`.
const UPSTREAM: &str = "import os, socket
listener = socket.create_server(('127.0.0.1', 0))
os.write(1, b'127.0.0.1:%d' % listener.getsockname()[1])
os.close(1)
client = listener.accept()[0]
heard = b''
while len(heard) < 5:
    heard += client.recv(5)
client.sendall(b'served' if heard == b'hello' else heard)
";

/// A port at which nobody listens.
fn free_port(rt: &HostRuntime) -> io::Result<u16> {
    let listener = TcpListener::bind(rt, (Ipv4Addr::LOCALHOST, 0))?;
    Ok(listener.local_addr()?.port())
}

/// Whether a door hears a client to its end and answers it.
fn serves<D: Door>(door: &mut D) -> bool {
    let mut room = [0u8; 8];
    if let Put::Failed = door.next() {
        return false;
    }
    let heard = match door.read(&mut room) {
        DoorGot::Some(count) => &room[..count] == b"hello".as_slice(),
        DoorGot::End | DoorGot::Failed => false,
    };
    let ended = matches!(door.read(&mut room), DoorGot::End);
    let answered = matches!(door.write(b"served"), Put::Done);
    door.close(true);
    heard && ended && answered
}

/// Whether a pocket holds what is saved in it.
fn holds<P: Pocket>(pocket: &mut P, place: &Text) -> bool {
    if pocket.open(place).is_err() {
        return false;
    }
    if !matches!(pocket.save(b"kept"), SaveResult::Done) {
        return false;
    }
    match pocket.load() {
        Loaded::Saved(text) => text.as_slice() == b"kept".as_slice(),
        Loaded::Nothing | Loaded::Failed | Loaded::Memory => false,
    }
}

/// Whether an exchange with an upstream that serves is answered.
fn is_answered<L: Link>(link: &mut L, upstream: &Text) -> bool {
    if link.open(upstream).is_err() {
        return false;
    }
    match link.exchange(b"hello") {
        Exchanged::Reply(bytes) => bytes.as_slice() == b"served".as_slice(),
        Exchanged::Failed | Exchanged::Memory => false,
    }
}

/// Whether an exchange with an upstream that isn't there fails.
fn fails<L: Link>(link: &mut L, upstream: &Text) -> bool {
    link.open(upstream).is_ok() && matches!(link.exchange(b"hello"), Exchanged::Failed)
}

#[test]
fn a_client_is_served(rt: HostRuntime) -> io::Result<()> {
    let port = free_port(&rt)?;
    let mut door = TcpDoor::new(&rt, listen_address(None))?;
    assert!(rt; matches!(door.open(port), Put::Done));
    let mut client = TcpStream::connect(&rt, (Ipv4Addr::LOCALHOST, port))?;
    client.write_all(b"hello")?;
    client.shutdown(Shutdown::Write)?;
    assert!(rt; serves(&mut door));
    let said = io::read_to_string(rt.alloc(), client)?;
    assert_eq!(rt; said.as_str(), "served");
    Ok(())
}

#[test]
fn an_upstream_answers(rt: HostRuntime) -> io::Result<()> {
    let alloc = rt.alloc();
    let mut command = Command::new(alloc, "python3")?;
    command.arg("-c")?.arg(UPSTREAM)?;
    command.stdin(Stdio::null()).stdout(Stdio::piped());
    let mut program = command.spawn(&rt)?;
    drop(command);
    let said = program.stdout.take();
    assert!(rt; said.is_some());
    if let Some(said) = said {
        let name = io::read_to_string(alloc, said)?;
        let upstream = Text::from_str(alloc, name.as_str())?;
        let mut link = TcpLink::new(alloc, &rt, seconds_between(None))?;
        assert!(rt; is_answered(&mut link, &upstream));
    }
    program.kill()?;
    program.wait()?;
    Ok(())
}

#[test]
fn an_upstream_that_is_not_there_fails(rt: HostRuntime) -> io::Result<()> {
    let alloc = rt.alloc();
    let port = free_port(&rt)?;
    let name = format!(in alloc; "127.0.0.1:{port}")?;
    let upstream = Text::from_str(alloc, name.as_str())?;
    let mut link = TcpLink::new(alloc, &rt, seconds_between(None))?;
    assert!(rt; fails(&mut link, &upstream));
    Ok(())
}

#[test]
fn a_pocket_holds_its_text(rt: HostRuntime) -> Result<(), test::Fail> {
    let alloc = rt.alloc();
    let folder = fresh_folder(&rt, "pocket");
    assert!(rt; folder.is_some());
    if let Some(folder) = folder {
        let mut place = Text::from_str(alloc, folder.as_str())?;
        place.push("/pocket")?;
        let mut pocket = FilePocket::new(&rt)?;
        assert!(rt; holds(&mut pocket, &place));
        fs::remove_dir_all(&rt, folder.as_str())?;
    }
    Ok(())
}
