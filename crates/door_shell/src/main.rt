//! A shell over the real door, the real link and the pocket in a file, for rows that wait for a peer or want a disk: a command on each line
//! of standard input, and what was answered on standard output.
#![tactic(auto)]

mod doors;
mod links;
mod pockets;

use agent_text::Pocket;
use desk_door::{Door, Link};
use file_pocket::FilePocket;
use rel_lexer::Text;
use std::alloc::AllocError;
use std::env::{self, VarError};
use std::io;
use std::rt::Env;
use tcp_door::{TcpDoor, TcpLink, listen_address, seconds_between};

/// The text of a variable, or None where it is absent. What is no text is taken as the empty one, which no variable of the desk may have.
fn variable(rt: &(impl Env + AllocGlobal), name: &str) -> Result<Option<Text>, AllocError> {
    match env::var(rt, name) {
        Ok(text) => Ok(Some(Text::from_str(rt.alloc(), text.as_str())?)),
        Err(VarError::NotPresent) => Ok(None),
        Err(VarError::NotUnicode) => Ok(Some(Text::from_str(rt.alloc(), "")?)),
        Err(VarError::OutOfMemory) => Err(AllocError),
    }
}

fn as_str(text: &Option<Text>) -> Option<&str> {
    match text {
        Some(text) => Some(text.as_str()),
        None => None,
    }
}

/// Obeys a line.
fn obey<D: Door, L: Link, P: Pocket>(
    rt: &HostRuntime,
    door: &mut D,
    link: &mut L,
    pocket: &mut P,
    line: &str,
) -> io::Result<()> {
    let (word, rest) = match line.split_once(' ') {
        Some((word, rest)) => (word, rest),
        None => (line, ""),
    };
    match word {
        "open" | "next" | "read" | "rest" | "write" | "fill" | "close" => {
            doors::obey(rt, door, word, rest)
        }
        "link" | "ask" | "pause" => links::obey(rt, link, word, rest),
        "pocket" | "load" | "save" => pockets::obey(rt, pocket, word, rest),
        _ => println!(rt; "no command"),
    }
}

fn main(rt: HostRuntime) -> io::Result<()> {
    let listen = variable(&rt, "DESK_LISTEN")?;
    let every = variable(&rt, "DESK_EVERY")?;
    let mut door = TcpDoor::new(&rt, listen_address(as_str(&listen)))?;
    let mut link = TcpLink::new(rt.alloc(), &rt, seconds_between(as_str(&every)))?;
    let mut pocket = FilePocket::new(&rt)?;
    for line in rt.lines(rt.alloc()) {
        let line = line?;
        obey(&rt, &mut door, &mut link, &mut pocket, line.as_str())?;
    }
    Ok(())
}
