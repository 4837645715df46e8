ghost use Rattle.std.specs.Prelude.{◌≡◌, OnOk};
ghost use Rattle.world_text.specs.Drafts.{world_of, just, IsSoundPending};

use bf_world::{Node, Program, World};
use desk_base::Bytes;
use rel_lexer::Text;
use std::alloc::AllocError;
use std::mem;

/// A world while its text is read.
#[derive(Drop)]
pub(crate) struct Draft {
    pub(crate) world: World,
    pub(crate) pending: Pending,
}

/// What further lines may follow. It isn't in the world yet.
#[derive(Drop)]
pub(crate) enum Pending {
    Nothing,
    /// A file with its lines so far.
    File {
        path: Text,
        content: Bytes,
        modified: i64,
    },
    /// A program with the packages that it gives so far.
    Program {
        line: Text,
        program: Program,
    },
}

impl Draft {
    /// This world, with nothing pending.
    pub(crate) fn just(world: World) -> Draft
        ensures { result ≡ record { world = world; pending = Pending.Nothing } }
    {
        Draft {
            world,
            pending: Pending::Nothing,
        }
    }

    /// Puts what is pending into the world.
    pub(crate) fn settle(&mut self) -> Result<(), AllocError>
        requires { IsSoundPending self.old.pending }
        ensures { OnOk result (self.new ≡ just (world_of self.old)) }
    {
        match mem::replace(&mut self.pending, Pending::Nothing) {
            Pending::Nothing => Ok(()),
            Pending::File {
                path,
                content,
                modified,
            } => self
                .world
                .set_node(path.as_str(), Node::File { content, modified }),
            Pending::Program { line, program } => self.world.set_program(line.as_str(), program),
        }
    }
}
