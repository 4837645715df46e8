// Files from the server of an office.
ghost use Rattle.std.specs.Prelude.{◌≡◌};
ghost use Rattle.office_play.specs.Files.{RowsServe, brought};

use crate::asking::answer;
use bf_machine::Unseen;
use desk_keep::SureKeeper;
use server_core::{Reply, Request};
use std::alloc::Global;
use turn_lines::{FileAsked, Given, Giver};

/// The server's files. Which were asked for only clauses see.
#[derive(Drop)]
pub(crate) struct ServedFiles<'a> {
    pub(crate) alloc: Global,
    pub(crate) keeper: &'a mut SureKeeper,
    pub(crate) asked: &'a mut Unseen<FileAsked>,
}

impl Giver for ServedFiles<'_> {
    ghost use Rattle.std.specs.Prelude.{List, [], ◌∷◌};
    ghost use Rattle.desk_keep.specs.declared.change.Change.{Change};
    ghost use Rattle.office_play.specs.Files.{RowsServe};

    ghost Source = { List Change };

    ghost told = { λ files. record { asked = files.asked.now; source = files.keeper.now } };

    ghost gives = { RowsServe };

    ghost holds = { λ files. files.keeper.ghost_name ∷ files.asked.ghost_name ∷ [] };

    fn give(&mut self, digest: &[u8; 32]) -> Given {
        let asked = FileAsked {
            digest: *digest,
            answer: served(self.alloc, self.keeper, digest),
        };
        self.asked.push(&asked);
        asked.answer
    }
}

/// What the server replies to one who asks for the file of a digest.
fn served(alloc: Global, keeper: &mut SureKeeper, digest: &[u8; 32]) -> Given
    ensures { RowsServe keeper.old digest.now result keeper.new }
{
    match answer(alloc, keeper, &Request::AskFile(*digest)) {
        Ok(reply) => brought(reply),
        Err(_) => Given::Memory,
    }
}

/// What a reply to one who asks for a file brings.
fn brought(reply: Reply) -> Given
    ensures { result ≡ brought reply }
{
    match reply {
        Reply::Content(bytes) => Given::File(bytes),
        Reply::NoSuch => Given::NotServed,
        _ => Given::NotGot,
    }
}
