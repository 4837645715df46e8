//! A described machine, and a moment at which it is asked.

use bf_machine::{Key, PlainMachine, read_world};
use rel_inspect::{Pairs, Scene};
use std::alloc::Global;
use std::test::Fail;

const WORLD: &[u8] = b"world
name pc1
system 12.4 Debian
offset -480
moment 1173053048
folder /a
file 100 /a/empty
file 200 /a/one
| x=1
end
";

/// A machine with the folder `/a`, and in it the files `empty` and `one`. The looks with these numbers fail.
pub(crate) fn machine(alloc: Global, fails: &[u32]) -> Option<PlainMachine> {
    let looks = Vec::from_slice(alloc, fails).ok()?;
    let world = read_world(alloc, WORLD).ok()?;
    Some(PlainMachine::new(alloc, world, looks, Vec::new(alloc), Vec::new(alloc)))
}

/// Its own moment and offset, with no parameters and no exit code.
pub(crate) fn scene(alloc: Global) -> Scene {
    Scene {
        moment: 1_173_053_048,
        offset: -480,
        parameters: Pairs::new(alloc),
        exit: None,
    }
}

/// Appends the looks that were made.
pub(crate) fn push_looks(machine: &PlainMachine, text: &mut String) -> Result<(), Fail> {
    for key in machine.looked() {
        match key {
            Key::Stat(path) => write!(text, "stat {};", path.as_str())?,
            Key::List(path) => write!(text, "list {};", path.as_str())?,
            Key::Read(path) => write!(text, "read {};", path.as_str())?,
            _ => text.push_str("other;")?,
        }
    }
    Ok(())
}
