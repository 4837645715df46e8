use desk_base::Put;
use desk_door::{Door, DoorGot};
use std::io;

/// The most bytes of one read.
const ROOM: usize = 4096;

/// How many bytes are written at a time by `fill`.
const PIECE: usize = 65_536;

/// `open PORT`, `next`, `read` once, `rest` to the end, `write TEXT`, `fill N` to write 65,536 bytes N times, and
/// `close whole` or `close cut`.
pub(crate) fn obey<D: Door>(
    rt: &HostRuntime,
    door: &mut D,
    word: &str,
    rest: &str,
) -> io::Result<()> {
    let answer = match word {
        "open" => shown(door.open(rest.parse().unwrap_or(0))),
        "next" => shown(door.next()),
        "read" => return read(rt, door),
        "rest" => return read_rest(rt, door),
        "write" => shown(door.write(rest.as_bytes())),
        "fill" => fill(door, rest.parse().unwrap_or(0)),
        _ => {
            door.close(rest == "whole");
            "closed"
        }
    };
    println!(rt; "{answer}")
}

fn shown(put: Put) -> &'static str {
    match put {
        Put::Done => "done",
        Put::Failed => "failed",
    }
}

fn read<D: Door>(rt: &HostRuntime, door: &mut D) -> io::Result<()> {
    let mut room = [0u8; ROOM];
    match door.read(&mut room) {
        DoorGot::Some(count) => println!(rt; "{count}"),
        DoorGot::End => println!(rt; "end"),
        DoorGot::Failed => println!(rt; "failed"),
    }
}

/// Reads until something else comes than bytes, and tells how many there were before it.
fn read_rest<D: Door>(rt: &HostRuntime, door: &mut D) -> io::Result<()> {
    let mut room = [0u8; ROOM];
    let mut all: usize = 0;
    for _ in 0..u64::MAX {
        match door.read(&mut room) {
            DoorGot::Some(count) => all = all.saturating_add(count),
            DoorGot::End => return println!(rt; "{all} end"),
            DoorGot::Failed => return println!(rt; "{all} failed"),
        }
    }
    println!(rt; "{all} and more")
}

fn fill<D: Door>(door: &mut D, count: u32) -> &'static str {
    let piece = [b'x'; PIECE];
    for _ in 0..count {
        if let Put::Failed = door.write(&piece) {
            return "failed";
        }
    }
    "done"
}
