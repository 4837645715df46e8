// The words `publish`, `act`, `stop` and `file`.
ghost use Rattle.std.specs.Prelude.{◌≡◌, IfOk, OnErr, OnOk};
ghost use Rattle.office_rules.specs.ServerWords.{AsksServer};
ghost use Rattle.office_play.specs.Links.{IsGoodOffice, KeepsNames};
ghost use Rattle.office_play.specs.Played.{AnswersOver, Plays};
ghost use Rattle.office_play.specs.States.{kept_of};

use crate::office::Office;
use desk_base::Bytes;
use desk_keep::SureKeeper;
use server_core::{Limits, Reply, Request, Server, answers_leave_what_is_accepted, say_reply};
use std::alloc::{AllocError, Global};

impl Office {
    /// Asks the server, and says what it replies to this word. The error is want of memory, as with every word.
    #[tactic(auto, unfolding(office_rules::specs::ServerWords::replied_line))]
    pub(crate) fn ask(
        &mut self,
        word: &str,
        request: &Request,
        out: &mut Bytes,
    ) -> Result<(), AllocError>
        requires { IsGoodOffice (kept_of self.old) }
        ensures plays { OnOk result (Plays (AsksServer word.now request.now) (kept_of self.old) out.old (kept_of self.new) out.new) }
        ensures names { OnOk result (KeepsNames (kept_of self.old) (kept_of self.new)) }
    {
        let reply = answer(self.alloc, &mut self.keeper, request)?;
        out.extend(word.as_bytes())?;
        out.extend(b": ")?;
        say_reply(&reply, out)
    }
}

/// What the server of an office replies.
pub(crate) fn answer(
    alloc: Global,
    keeper: &mut SureKeeper,
    request: &Request,
) -> Result<Reply, AllocError>
    ensures answers { IfOk result (λ reply. AnswersOver keeper.old request.now reply keeper.new) }
    ensures err { OnErr result (keeper.new ≡ keeper.old) }
{
    // Proof: what is accepted then was asked for and accepted.
    answers_leave_what_is_accepted();
    let server = Server::new(Limits::of_the_desk());
    match server.answer(alloc, keeper, request) {
        // a keeper that can't fail
        Reply::KeeperFault => unreachable!(),
        Reply::Memory => Err(AllocError),
        reply => Ok(reply),
    }
}
