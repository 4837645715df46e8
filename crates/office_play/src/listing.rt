// The word `members`.
ghost use Rattle.std.specs.Prelude.{◌≡◌, ◌++◌, OnOk};
ghost use Rattle.office_rules.specs.GroupWords.{SaysMembers, members_lines};
ghost use Rattle.office_play.specs.Links.{IsGoodOffice};
ghost use Rattle.office_play.specs.Played.{Plays};
ghost use Rattle.office_play.specs.States.{kept_of};

use crate::line::{Word, say_about, say_words};
use crate::office::Office;
use desk_base::Bytes;
use rel_lexer::Text;
use std::alloc::AllocError;

impl Office {
    /// Says the members of the group of this name, or that there is none.
    pub(crate) fn list_members(&self, group: &Text, out: &mut Bytes) -> Result<(), AllocError>
        requires { IsGoodOffice (kept_of self.now) }
        ensures { OnOk result (Plays (SaysMembers group.now) (kept_of self.now) out.old (kept_of self.now) out.new) }
    {
        match self.book.members(group) {
            Some(members) => say_members(group, members, out),
            None => say_about(
                &[Word::Text("members"), Word::Text(group.as_str())],
                &[Word::Text("nothing")],
                out,
            ),
        }
    }
}

/// Says the members of a group, and how many they are.
fn say_members<'a>(group: &'a Text, members: &'a [Text], out: &mut Bytes) -> Result<(), AllocError>
    ensures { OnOk result (out.new ≡ out.old ++ members_lines group.now members.now) }
{
    for member in members {
        say_words(
            &[
                Word::Text("member"),
                Word::Text(group.as_str()),
                Word::Text(member.as_str()),
            ],
            out,
        )?;
    }
    say_about(
        &[Word::Text("members"), Word::Text(group.as_str())],
        &[Word::Number(members.len() as u64)],
        out,
    )
}
