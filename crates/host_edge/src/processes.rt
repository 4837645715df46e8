ghost use Rattle.std.specs.Prelude.{IfOk};
ghost use Rattle.bf_world.specs.Answers.{IsGoodAnswer, HasAscendingNames};

use crate::Host;
use crate::list::entries_at;
use crate::place::LONGEST_NUMBER;
use crate::read::content_at;
use crate::rows::bare_world;
use bf_world::{Answer, Entry, Key, World, joined};
use desk_base::Bytes;
use edge_faults::Trouble;
use line_forms::read_rest;
use rel_lexer::Text;
use std::alloc::{AllocError, Global};
use std::io::{Error, ErrorKind};
use std::mem::drop;

/// Where the system shows its processes, each in a folder with its number as the name.
const PROCESSES: &str = "/proc";

/// The most bytes of what the system calls a process: it cuts a longer name there.
const LONGEST_CALLED: usize = 15;

/// The names of the processes that run, each once. One that has ended before its name is read is passed over, and so are one whose files
/// can't be read and one without a name.
pub(crate) fn processes<H: Host>(host: &H) -> Result<Answer, Trouble>
    ensures good { IfOk result IsGoodAnswer }
    ensures ascending { IfOk result HasAscendingNames }
{
    let Some(entries) = entries_at(host, PROCESSES, LONGEST_NUMBER)? else {
        return Err(Trouble::System(Error::new(ErrorKind::NotFound, "it isn't there")));
    };
    let shown = shown_among(host, entries.as_slice());
    drop(entries);
    shown
}

/// The same, where these are the folders of the processes and what stands beside them.
fn shown_among<H: Host>(host: &H, entries: &[Entry]) -> Result<Answer, Trouble>
    ensures good { IfOk result IsGoodAnswer }
    ensures ascending { IfOk result HasAscendingNames }
{
    let mut world = bare_world(host.alloc())?;
    let shown = shown_in(host, &mut world, entries);
    drop(world);
    shown
}

/// The same, by what a machine shows that has them.
fn shown_in<H: Host>(host: &H, world: &mut World, entries: &[Entry]) -> Result<Answer, Trouble>
    ensures good { IfOk result IsGoodAnswer }
    ensures ascending { IfOk result HasAscendingNames }
{
    for entry in entries {
        if entry.folder && is_number(entry.name.as_str()) {
            add_process(host, world, entry.name.as_str())?;
        }
    }
    Ok(world.look(&Key::Processes)?)
}

/// Adds the process with this number, where it has a name.
fn add_process<H: Host>(host: &H, world: &mut World, number: &str) -> Result<(), Trouble> {
    let Some(name) = process_name(host, number)? else {
        return Ok(());
    };
    let added = world.set_process(name.as_str());
    drop(name);
    Ok(added?)
}

fn is_number(name: &str) -> bool {
    name.as_bytes().iter().all(|byte| byte.is_ascii_digit())
}

/// The name of the process with this number: what the system calls it, as `ps -e` and `pgrep` do.
fn process_name<H: Host>(host: &H, number: &str) -> Result<Option<Text>, Trouble> {
    let folder = joined(host.alloc(), PROCESSES, number)?;
    let name = name_in(host, folder.as_str());
    drop(folder);
    name
}

fn name_in<H: Host>(host: &H, folder: &str) -> Result<Option<Text>, Trouble> {
    match content_in(host, folder, "comm")? {
        Some(content) => named(host, folder, called(content.as_slice())),
        None => Ok(None),
    }
}

/// The name of a process that the system calls so. Where it may have been cut, it is the whole one that the process itself tells.
fn named<H: Host>(host: &H, folder: &str, called: &[u8]) -> Result<Option<Text>, Trouble> {
    if called.len() != LONGEST_CALLED {
        return Ok(name_of(host.alloc(), called)?);
    }
    match content_in(host, folder, "cmdline")? {
        Some(line) => Ok(name_of(host.alloc(), uncut(called, line.as_slice()))?),
        None => Ok(None),
    }
}

/// The program of a command line, where its name begins with what may have been cut, or else that.
fn uncut<'a>(called: &'a [u8], line: &'a [u8]) -> &'a [u8] {
    let program = program_of(line);
    if program.starts_with(called) {
        program
    } else {
        called
    }
}

/// The bytes of a file of a process, or None where it has ended or can't be asked.
fn content_in<H: Host>(host: &H, folder: &str, name: &str) -> Result<Option<Bytes>, Trouble> {
    let place = joined(host.alloc(), folder, name)?;
    let content = content_at(host, place.as_str());
    drop(place);
    match content {
        Err(Trouble::System(_)) => Ok(None),
        other => other,
    }
}

/// The last part of the first argument of a command line, in which each argument ends with a NUL.
fn program_of(line: &[u8]) -> &[u8] {
    let first = line.split(|byte| *byte == 0).next().unwrap_or(line);
    first.rsplit(|byte| *byte == b'/').next().unwrap_or(first)
}

/// What the system calls a process, as it stands before an LF.
fn called(line: &[u8]) -> &[u8] {
    line.strip_suffix(b"\n").unwrap_or(line)
}

/// The name that these bytes are, where they are one.
fn name_of(alloc: Global, bytes: &[u8]) -> Result<Option<Text>, AllocError> {
    match read_rest(bytes) {
        Some(name) => Ok(Some(Text::from_str(alloc, name)?)),
        None => Ok(None),
    }
}
