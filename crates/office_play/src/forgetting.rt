// The word `forget`.
ghost use Rattle.std.specs.Prelude.{OnOk};
ghost use Rattle.office_rules.specs.RelayWords.{Forgets};
ghost use Rattle.office_play.specs.Links.{IsGoodOffice, IsNamed, KeepsNames};
ghost use Rattle.office_play.specs.Played.{Plays};
ghost use Rattle.office_play.specs.States.{kept_of};

use crate::line::{Word, say_words};
use crate::office::Office;
use desk_base::Bytes;
use rel_lexer::Text;
use relay_core::Relay;
use std::alloc::AllocError;

impl Office {
    /// A relay begins anew.
    pub(crate) fn forget(&mut self, name: &Text, out: &mut Bytes) -> Result<(), AllocError>
        requires good { IsGoodOffice (kept_of self.old) }
        requires name { IsNamed name.now (kept_of self.old).relays }
        ensures plays { OnOk result (Plays (Forgets name.now) (kept_of self.old) out.old (kept_of self.new) out.new) }
        ensures names { OnOk result (KeepsNames (kept_of self.old) (kept_of self.new)) }
    {
        let place = self.relay_place(name);
        self.relays[place].relay = Relay::of_the_desk(self.alloc);
        say_words(&[Word::Text("forget"), Word::Text(name.as_str())], out)
    }
}
