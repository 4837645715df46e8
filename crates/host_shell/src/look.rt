use bf_machine::{Key, Machine};
use desk_base::Bytes;
use look_text::write_looked;
use rel_lexer::Text;
use std::alloc::Global;
use std::mem::drop;

/// The key of the look with this word, whose path is the rest of the line. None where there is no such look, or no memory.
fn key(alloc: Global, word: &str, rest: &str) -> Option<Key> {
    match word {
        "stat" => Some(Key::Stat(Text::from_str(alloc, rest).ok()?)),
        "list" => Some(Key::List(Text::from_str(alloc, rest).ok()?)),
        "read" => Some(Key::Read(Text::from_str(alloc, rest).ok()?)),
        "processes" => Some(Key::Processes),
        "packages" => Some(Key::Packages),
        "settings" => Some(Key::Settings),
        _ => None,
    }
}

/// Appends what the look with this word shows. None where there is no such look, or no memory.
pub(crate) fn look<M: Machine>(
    alloc: Global,
    machine: &mut M,
    word: &str,
    rest: &str,
    words: &mut Bytes,
) -> Option<()> {
    let key = key(alloc, word, rest)?;
    let looked = machine.look(&key);
    drop(key);
    let written = write_looked(&looked, words);
    drop(looked);
    written.ok()
}
