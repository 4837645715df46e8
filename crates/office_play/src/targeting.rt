// The word `target`.
ghost use Rattle.std.specs.Prelude.{IfOk, OnOk};
ghost use Rattle.office_rules.specs.GroupWords.{TargetsGroup};
ghost use Rattle.office_play.specs.Links.{IsGoodOffice, KeepsNames};
ghost use Rattle.office_play.specs.Aiming.{IsAimedAt};
ghost use Rattle.office_play.specs.Played.{Plays};
ghost use Rattle.office_play.specs.States.{kept_of};

use crate::aiming::aimed;
use crate::line::{Word, say_about};
use crate::office::Office;
use desk_base::Bytes;
use rel_lexer::Text;
use server_core::Request;
use std::alloc::AllocError;

impl Office {
    /// The server is asked to act on the members of the group of this name, if it has any.
    pub(crate) fn target(
        &mut self,
        group: &Text,
        action: &Bytes,
        out: &mut Bytes,
    ) -> Result<(), AllocError>
        requires { IsGoodOffice (kept_of self.old) }
        ensures plays { OnOk result (Plays (TargetsGroup group.now action.now) (kept_of self.old) out.old (kept_of self.new) out.new) }
        ensures names { OnOk result (KeepsNames (kept_of self.old) (kept_of self.new)) }
    {
        match self.aimed_at(group, action)? {
            Some(text) => self.ask("target", &Request::Act(text), out),
            None => say_about(&[Word::Text("target")], &[Word::Text("nothing")], out),
        }
    }

    /// The text of an action that is aimed at the members of the group of this name, if it has any.
    fn aimed_at(&self, group: &Text, action: &Bytes) -> Result<Option<Bytes>, AllocError>
        ensures { IfOk result (IsAimedAt (kept_of self.now).book group.now action.now) }
    {
        let Some(members) = self.book.members(group) else {
            return Ok(None);
        };
        if members.is_empty() {
            return Ok(None);
        }
        Ok(Some(aimed(self.alloc, members, action.as_slice())?))
    }
}
