ghost use Rattle.std.specs.Prelude.{◌≡◌, IfOk};

use rel_lexer::Text;
use std::alloc::AllocError;

/// What can be looked up on a machine.
#[derive(Drop)]
pub enum Key {
    /// What stands at a path.
    Stat(Text),
    /// The entries of the folder at a path.
    List(Text),
    /// The bytes of the file at a path.
    Read(Text),
    /// The operating system.
    System,
    /// The computer's name.
    ComputerName,
    /// The processes that run.
    Processes,
    /// The packages that are installed.
    Packages,
    /// The settings.
    Settings,
}

impl Key {
    /// The same key once more. The error is want of memory.
    pub fn copy(&self) -> Result<Key, AllocError>
        ensures { IfOk result (λ key. key ≡ self.now) }
    {
        match self {
            Key::Stat(path) => Ok(Key::Stat(path.copy()?)),
            Key::List(path) => Ok(Key::List(path.copy()?)),
            Key::Read(path) => Ok(Key::Read(path.copy()?)),
            Key::System => Ok(Key::System),
            Key::ComputerName => Ok(Key::ComputerName),
            Key::Processes => Ok(Key::Processes),
            Key::Packages => Ok(Key::Packages),
            Key::Settings => Ok(Key::Settings),
        }
    }
}
