ghost use Rattle.std.specs.Prelude.{◌≡◌, Some};
ghost use Rattle.bf_world.specs.Places.{folder_test};

use crate::PackageList;
use desk_base::Bytes;
use rel_lexer::Text;

/// What stands at a path.
#[derive(Drop)]
pub enum Node {
    Folder,
    /// A file's bytes, and the moment at which it was last modified.
    File { content: Bytes, modified: i64 },
}

impl Node {
    pub(crate) fn is_folder(&self) -> bool
        ensures { result ≡ folder_test (Some self.now) }
    {
        match self {
            Node::Folder => true,
            Node::File { .. } => false,
        }
    }
}

/// What a setting is, and the moment from which it holds.
#[derive(Drop)]
pub struct SettingValue {
    pub value: Text,
    pub date: i64,
}

/// A program that can be started.
#[derive(Drop)]
pub struct Program {
    /// How many polls find it running, from 0 to 1,000,000.
    pub polls: u32,
    /// The exit code after them.
    pub exit: u8,
    /// The packages that are installed by starting it.
    pub gives: PackageList,
}

/// A program that was started.
#[derive(Clone, Copy)]
pub struct Run {
    /// How many polls still find it running.
    pub left: u32,
    /// The exit code after them.
    pub exit: u8,
}
