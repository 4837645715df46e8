// Looks at files, folders, and what the files of the work folder spell.
use crate::programs::run;
use bf_machine::{Answer, Key, Looked, Machine};
use bf_world::joined;
use desk_base::Bytes;
use look_text::write_looked;
use rel_lexer::Text;
use std::alloc::Global;
use std::fs;
use std::mem::drop;

/// A sort of look.
#[derive(Clone, Copy)]
enum Sort {
    Stat,
    List,
    Read,
    System,
    Name,
    Packages,
    Settings,
}

/// Makes a file of six bytes that was modified before 1970, a folder, links to both, to nowhere and to itself, a pipe, and a name that
/// isn't UTF-8.
const MAKES_THINGS: &str =
    "mkdir sub; printf '12345\\n' > a; touch -d @-5 a; ln -s a to_a; ln -s sub to_sub; ln -s no to_no; \
    ln -s loop loop; mkfifo pipe; touch \"$(printf 'x\\377')\"";

/// Looks at what is made there, and what they show.
const ROWS: [(Sort, &str, &str); 16] = [
    (Sort::Stat, "a", "file 6 0"),
    (Sort::Stat, "to_a", "file 6 0"),
    (Sort::Stat, "sub", "folder"),
    (Sort::Stat, "to_sub", "folder"),
    (Sort::Stat, "to_no", "nothing"),
    (Sort::Stat, "loop", "nothing"),
    (Sort::Stat, "pipe", "nothing"),
    (Sort::Stat, "a/b", "nothing"),
    (Sort::Stat, "../looks", "nothing"),
    (Sort::Stat, "", "nothing"),
    (Sort::List, "sub", ""),
    (Sort::List, "a", "nothing"),
    (Sort::Read, "to_a", "12345\n"),
    (Sort::Read, "sub", "nothing"),
    (Sort::Read, "pipe", "nothing"),
    (Sort::Read, "/proc/self/mem", "failed"),
];

/// What the folder itself shows then.
const ENTRIES: &str = "a loop pipe sub/ to_a to_no to_sub ";

/// Looks at files of the work folder, each of which is written before where a text stands here, and what they show.
const FILES: [(Sort, Option<&str>, &str); 10] = [
    (Sort::System, None, "unknown 0 "),
    (Sort::Name, None, "host"),
    (Sort::Packages, None, ""),
    (Sort::Settings, None, ""),
    (
        Sort::System,
        Some("12.4 Debian GNU/Linux\n"),
        "Debian GNU/Linux 12.4 ",
    ),
    (Sort::Name, Some("pc-1\n"), "pc-1"),
    (
        Sort::Packages,
        Some("1.2 b\nbad line\n1.0 a c\n1.3 b\n2 d"),
        "a c 1.0 b 1.3 ",
    ),
    (
        Sort::Settings,
        Some("5 b two words\n05 c value\n7 a x\n"),
        "a 7 x b 5 two words ",
    ),
    (Sort::System, Some("12.4 Debian\n\n"), "unknown 0 "),
    (Sort::Name, Some("pc 1\n"), "host"),
];

/// How many looks there are, and one more at the folder itself.
pub(crate) const ALL: usize = ROWS.len() + 1;

/// How many looks at files of the work folder there are.
pub(crate) const ALL_FILES: usize = FILES.len();

/// The key of this sort of look. A path is of use to the first three.
fn key(alloc: Global, sort: Sort, path: &str) -> Option<Key> {
    match sort {
        Sort::Stat => Some(Key::Stat(Text::from_str(alloc, path).ok()?)),
        Sort::List => Some(Key::List(Text::from_str(alloc, path).ok()?)),
        Sort::Read => Some(Key::Read(Text::from_str(alloc, path).ok()?)),
        Sort::System => Some(Key::System),
        Sort::Name => Some(Key::ComputerName),
        Sort::Packages => Some(Key::Packages),
        Sort::Settings => Some(Key::Settings),
    }
}

/// The file of the work folder that a sort of look reads.
fn file_of(sort: Sort) -> &'static str {
    match sort {
        Sort::System => "system",
        Sort::Name => "name",
        Sort::Packages => "packages",
        _ => "settings",
    }
}

/// Appends what a look shows.
fn write_shown<M: Machine>(machine: &mut M, key: &Key, words: &mut Bytes) -> Option<()> {
    let looked = machine.look(key);
    let written = write_looked(&looked, words);
    drop(looked);
    written.ok()
}

/// Whether a look shows this.
fn shows<M: Machine>(
    alloc: Global,
    machine: &mut M,
    sort: Sort,
    path: &str,
    expected: &str,
) -> Option<bool> {
    let key = key(alloc, sort, path)?;
    let mut words = Bytes::new(alloc);
    let written = write_shown(machine, &key, &mut words);
    let same = words.as_slice() == expected.as_bytes();
    drop(key);
    drop(words);
    written?;
    Some(same)
}

/// How many looks show what their rows say, up to the first that doesn't.
fn right_looks<M: Machine>(alloc: Global, machine: &mut M) -> Option<usize> {
    for (index, row) in ROWS.iter().enumerate() {
        let (sort, path, expected) = *row;
        if !shows(alloc, machine, sort, path, expected)? {
            return Some(index);
        }
    }
    Some(ROWS.len())
}

/// Whether the folder shows its entries.
fn lists<M: Machine>(alloc: Global, machine: &mut M, folder: &str) -> Option<bool> {
    shows(alloc, machine, Sort::List, folder, ENTRIES)
}

/// How many looks show what their rows say, and one more where the folder, in which the machine works, shows its entries.
pub(crate) fn right_rows<M: Machine>(
    rt: &HostRuntime,
    machine: &mut M,
    folder: &str,
) -> Option<usize> {
    if run(rt, machine, MAKES_THINGS)? != 0 {
        return None;
    }
    let right = right_looks(rt.alloc(), machine)?;
    let listed = lists(rt.alloc(), machine, folder)?;
    Some(right.saturating_add(usize::from(listed)))
}

/// Writes a file of a folder.
fn put(rt: &HostRuntime, folder: &str, name: &str, text: &str) -> Option<()> {
    let path = joined(rt.alloc(), folder, name).ok()?;
    fs::write(rt, path.as_str(), text).ok()
}

/// How many files of the work folder, this one, are read as their rows say, up to the first that isn't.
pub(crate) fn right_files<M: Machine>(
    rt: &HostRuntime,
    machine: &mut M,
    folder: &str,
) -> Option<usize> {
    for (index, row) in FILES.iter().enumerate() {
        let (sort, text, expected) = *row;
        if let Some(text) = text {
            put(rt, folder, file_of(sort), text)?;
        }
        if !shows(rt.alloc(), machine, sort, "", expected)? {
            return Some(index);
        }
    }
    Some(FILES.len())
}

fn has_name(looked: &Looked, name: &str) -> bool {
    match looked {
        Looked::Answer(Answer::Names(names)) => contains(names.as_slice(), name),
        _ => false,
    }
}

fn contains(names: &[Text], name: &str) -> bool {
    for other in names {
        if other.as_str() == name {
            return true;
        }
    }
    false
}

/// Whether a process of this name is shown.
fn has_process<M: Machine>(machine: &mut M, name: &str) -> bool {
    let looked = machine.look(&Key::Processes);
    let found = has_name(&looked, name);
    drop(looked);
    found
}

/// Whether a program that a shell has left running is among the processes.
pub(crate) fn shows_a_process<M: Machine>(rt: &HostRuntime, machine: &mut M) -> Option<bool> {
    let line = "ln -s \"$(command -v sleep)\" host_sleep; ./host_sleep 10 & sleep 0.2";
    if run(rt, machine, line)? != 0 {
        return None;
    }
    Some(has_process(machine, "host_sleep"))
}
