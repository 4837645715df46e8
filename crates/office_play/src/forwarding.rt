// The word `forward`.
ghost use Rattle.std.specs.Prelude.{OnOk};
ghost use Rattle.office_rules.specs.MessageWords.{Forwards};
ghost use Rattle.office_play.specs.Kept.{HasAccepted};
ghost use Rattle.office_play.specs.Links.{IsGoodOffice, IsNamed, KeepsNames};
ghost use Rattle.office_play.specs.Played.{Plays};
ghost use Rattle.office_play.specs.States.{kept_of};

use crate::office::Office;
use desk_base::Bytes;
use rel_lexer::Text;
use std::alloc::AllocError;

impl Office {
    /// A relay sends each report that it queues; each of them arrives and is answered before the next.
    pub(crate) fn forward(&mut self, name: &Text, out: &mut Bytes) -> Result<(), AllocError>
        requires good { IsGoodOffice (kept_of self.old) }
        requires accepted { HasAccepted (kept_of self.old).rows }
        requires name { IsNamed name.now (kept_of self.old).relays }
        ensures plays { OnOk result (Plays (Forwards name.now) (kept_of self.old) out.old (kept_of self.new) out.new) }
        ensures names { OnOk result (KeepsNames (kept_of self.old) (kept_of self.new)) }
    {
        let first = self.next_number();
        self.push(name, out)?;
        for number in first..self.next_number() {
            self.deliver_and_answer(number, out)?;
        }
        Ok(())
    }
}
