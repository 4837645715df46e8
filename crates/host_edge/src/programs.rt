ghost use Rattle.std.specs.Prelude.{◌≡◌, ◌+◌, ◌<◌, IfOk, OnErr, MatchOption};

use crate::Host;
use bf_world::ProcessNo;
use std::alloc::{AllocError, Global};
use std::io::{self, Error, ErrorKind};
use std::marker::Model;
use std::mem::drop;
use std::os::unix::process::ExitStatusExt;
use std::process::{Child, Command, ExitStatus, OpenProcess, Stdio};

/// The most programs that are started.
const MOST_STARTED: usize = 4_294_967_295;

/// What is added to the number of the signal that ended a program, as a shell does.
const SIGNALLED: i64 = 128;

/// The programs that were started, in their order. Contracts see how many they are.
#[derive(Drop)]
pub(crate) struct Programs<P: OpenProcess + Drop> {
    started: Vec<Child<P>>,
}

impl<P: OpenProcess + Drop> Model for Programs<P> {
    ghost use Rattle.std.specs.Prelude.{ℕ, length};

    ghost Value = { ℕ };

    ghost view = { λ p. length p.started.items };
}

impl<P: OpenProcess + Drop> Programs<P> {
    /// None so far.
    pub(crate) fn none(alloc: Global) -> Programs<P>
        ensures { result ≡ 0 }
    {
        Programs {
            started: Vec::new(alloc),
        }
    }

    /// Asks each program whether it has ended, so that none stays behind. A refusal here comes again where the program is polled.
    pub(crate) fn reap(&mut self)
        ensures { self.new ≡ self.old }
    {
        for child in self.started.iter_mut() {
            let _ = child.try_wait();
        }
    }

    /// The exit code of a program, where it has ended.
    pub(crate) fn exit(&mut self, number: u32) -> io::Result<Option<i64>>
        requires { number < self.old }
        ensures { self.new ≡ self.old }
    {
        match self.started[number as usize].try_wait()? {
            None => Ok(None),
            Some(status) => Ok(Some(exit_of(status)?)),
        }
    }
}

/// Starts a command line in a folder, and answers its number. None where it can't be started.
pub(crate) fn start<H: Host>(
    programs: &mut Programs<H::Started>,
    host: &H,
    folder: &str,
    line: &str,
) -> Result<Option<ProcessNo>, AllocError>
    ensures ok { IfOk result (λ number. MatchOption number (programs.new ≡ programs.old)
        (λ n. (n ≡ record { 0 = programs.old }) × (programs.new ≡ programs.old + 1))) }
    ensures err { OnErr result (programs.new ≡ programs.old) }
{
    if programs.started.len() >= MOST_STARTED {
        return Ok(None);
    }
    let number = programs.started.len() as u32;
    programs.started.reserve(1)?;
    match spawned(host, folder, line) {
        Ok(child) => {
            programs.started.push(child)?;
            Ok(Some(ProcessNo(number)))
        }
        Err(error) if error.kind() == ErrorKind::OutOfMemory => Err(AllocError),
        Err(_) => Ok(None),
    }
}

/// A program of `sh`, with a command line to do in a folder. It has no input, and its output goes nowhere.
fn spawned<H: Host>(host: &H, folder: &str, line: &str) -> io::Result<Child<H::Started>> {
    let mut command = Command::new(host.alloc(), "sh")?;
    let child = spawned_by(host, &mut command, folder, line);
    drop(command);
    child
}

/// The same by the command of a shell that has no words so far.
fn spawned_by<H: Host>(
    host: &H,
    command: &mut Command,
    folder: &str,
    line: &str,
) -> io::Result<Child<H::Started>> {
    give_words(command, folder, line)?;
    command
        .stdin(Stdio::null())
        .stdout(Stdio::null())
        .stderr(Stdio::null());
    command.spawn(host)
}

/// Gives a shell the command line that it does, and the folder in which it does it.
fn give_words(command: &mut Command, folder: &str, line: &str) -> Result<(), AllocError> {
    command
        .arg("-c")?
        .arg("--")?
        .arg(line)?
        .current_dir(folder)?;
    Ok(())
}

/// The exit code of a program that has ended; of one that a signal ended 128 and the signal's number.
fn exit_of(status: ExitStatus) -> io::Result<i64> {
    if let Some(code) = status.code() {
        return Ok(i64::from(code));
    }
    match status.signal() {
        Some(signal) => Ok(SIGNALLED + i64::from(signal)),
        None => Err(Error::new(ErrorKind::InvalidData, "it has ended in no known way")),
    }
}
