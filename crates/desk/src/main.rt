//! The desk on the machine at hand, over standard input and output, files and the network.
#![tactic(auto)]

mod keeping;

use desk_top::{Status, desk};
use file_pocket::FilePocket;
use host_edge::{FileSink, FileSource, HostMachine, SystemClock};
use rel_lexer::Text;
use std::alloc::AllocError;
use std::env::VarError;
use std::io::ErrorKind;
use std::process::ExitCode;
use std::rt::Env;
use std::{env, io};
use tcp_door::{TcpDoor, TcpLink, listen_address, seconds_between};

/// The exit status where the path of the current folder is no text.
const NO_FOLDER: u8 = 64;

/// The words of the command line, without the program's name. Words that are not all text are none of the table's, and are
/// passed on as no words.
fn words_of(rt: &(impl Env + AllocGlobal)) -> Result<Vec<Text>, AllocError> {
    let alloc = rt.alloc();
    let mut words = Vec::new(alloc);
    let args = match env::args(rt) {
        Ok(args) => args,
        Err(error) if error.kind() == ErrorKind::OutOfMemory => return Err(AllocError),
        Err(_) => return Ok(words),
    };
    for word in args.skip(1) {
        words.push(Text::from_str(alloc, word.as_str())?)?;
    }
    Ok(words)
}

/// Whether the path of the current folder, in which the machine works, is text. Where it can't be asked, nothing speaks against it.
fn works_in_text(rt: &(impl Env + AllocGlobal)) -> bool {
    match env::current_dir(rt) {
        Ok(_) => true,
        Err(error) => error.kind() != ErrorKind::InvalidFilename,
    }
}

/// The text of a variable, or None where it is absent. What is no text is taken as the empty one, which no variable of the desk may have.
fn variable(rt: &(impl Env + AllocGlobal), name: &str) -> Result<Option<Text>, AllocError> {
    match env::var(rt, name) {
        Ok(text) => Ok(Some(Text::from_str(rt.alloc(), text.as_str())?)),
        Err(VarError::NotPresent) => Ok(None),
        Err(VarError::NotUnicode) => Ok(Some(Text::from_str(rt.alloc(), "")?)),
        Err(VarError::OutOfMemory) => Err(AllocError),
    }
}

fn as_str(text: &Option<Text>) -> Option<&str> {
    match text {
        Some(text) => Some(text.as_str()),
        None => None,
    }
}

/// Runs the words over standard input and output, the machine at hand, the clock, files and the network. The keeper is closed at the end,
/// so that its file alone holds all.
fn run(rt: &HostRuntime) -> Result<Status, AllocError> {
    let alloc = rt.alloc();
    let words = words_of(rt)?;
    let listen = variable(rt, "DESK_LISTEN")?;
    let every = variable(rt, "DESK_EVERY")?;
    let mut machine = HostMachine::new(alloc, rt)?;
    let mut source = FileSource::new(rt.reader(), rt);
    let mut sink = FileSink::new(io::writer(rt), rt);
    let mut pocket = FilePocket::new(rt)?;
    let mut keeper = keeping::keeper(rt, words.as_slice());
    let mut door = TcpDoor::new(rt, listen_address(as_str(&listen)))?;
    let mut link = TcpLink::new(alloc, rt, seconds_between(as_str(&every)))?;
    let mut clock = SystemClock::new(rt, rt);
    let status = desk(
        alloc,
        &words,
        &mut source,
        &mut sink,
        &mut machine,
        &mut pocket,
        &mut keeper,
        &mut door,
        &mut link,
        &mut clock,
    );
    keeping::close(&mut keeper);
    Ok(status)
}

fn main(rt: HostRuntime) -> ExitCode {
    if !works_in_text(&rt) {
        return ExitCode::from(NO_FOLDER);
    }
    let status = match run(&rt) {
        Ok(status) => status,
        Err(_) => Status::Memory,
    };
    ExitCode::from(status.number())
}
