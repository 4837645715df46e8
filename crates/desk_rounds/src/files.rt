// Files from a link.
ghost use Rattle.std.specs.Prelude.{◌≡◌, Err};
ghost use Rattle.turn_lines.specs.TurnsWithFiles.{given_of};
ghost use Rattle.desk_rounds.specs.Files.{GivenBy, GivesFromLink};
ghost use Rattle.desk_rounds.specs.Ways.{way};

use crate::asking::{Miss, ask_file};
use bf_machine::Unseen;
use desk_base::Bytes;
use desk_http::Link;
use rel_lexer::Text;
use std::alloc::Global;
use turn_lines::{FileAsked, Given, Giver};

/// The files of the upstream of a link, and of a second one, and why the one that was asked for last didn't come, where one didn't. Which
/// were asked for only clauses see.
#[derive(Drop)]
pub(crate) struct LinkFiles<'a, L: Link> {
    pub(crate) alloc: Global,
    pub(crate) link: &'a mut L,
    pub(crate) second: &'a mut Option<Text>,
    pub(crate) missed: &'a mut Option<Miss>,
    pub(crate) asked: &'a mut Unseen<FileAsked>,
}

impl<'a, L: Link> Giver for LinkFiles<'a, L> {
    ghost use Rattle.std.specs.Prelude.{[], ◌∷◌};
    ghost use Rattle.desk_rounds.specs.Files.{FileSource, GivesFromLink};
    ghost use Rattle.desk_rounds.specs.Ways.{way};

    ghost Source = { FileSource };

    ghost told = { λ files. record {
      asked = files.asked.now;
      source = record { way = way (L.told files.link.now) files.second.now; missed = files.missed.now };
    } };

    ghost gives = { GivesFromLink };

    ghost holds = { λ files. files.link.ghost_name ∷ files.second.ghost_name ∷ files.missed.ghost_name ∷ files.asked.ghost_name ∷ [] };

    fn give(&mut self, digest: &[u8; 32]) -> Given {
        let asked = FileAsked {
            digest: *digest,
            answer: file(self.alloc, self.link, self.second, self.missed, digest),
        };
        self.asked.push(&asked);
        asked.answer
    }
}

/// What comes for the file of this digest.
fn file<L: Link>(
    alloc: Global,
    link: &mut L,
    second: &mut Option<Text>,
    missed: &mut Option<Miss>,
    digest: &[u8; 32],
) -> Given
    ensures { GivesFromLink (record { way = way (L.told link.old) second.old; missed = missed.old }) digest.now result
        (record { way = way (L.told link.new) second.new; missed = missed.new }) }
{
    match ask_file(alloc, link, second, digest) {
        Ok(came) => given_of(came),
        Err(miss) => not_given(miss, missed),
    }
}

/// What is answered where this came.
fn given_of(came: Option<Bytes>) -> Given
    ensures { result ≡ given_of came }
{
    match came {
        Some(bytes) => Given::File(bytes),
        None => Given::NotServed,
    }
}

/// What is answered where nothing came.
fn not_given(miss: Miss, missed: &mut Option<Miss>) -> Given
    ensures { GivenBy (Err miss) missed.old result missed.new }
{
    match miss {
        Miss::Memory => Given::Memory,
        _ => {
            *missed = Some(miss);
            Given::NotGot
        }
    }
}
