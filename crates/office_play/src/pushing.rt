// The word `push`.
ghost use Rattle.std.specs.Prelude.{◌≡◌, OnOk};
ghost use Rattle.report_text.specs.declared.report.Report.{Report};
ghost use Rattle.office_rules.specs.MessageWords.{Pushes};
ghost use Rattle.office_play.specs.Kept.{HasAccepted};
ghost use Rattle.office_play.specs.Links.{IsGoodOffice, IsNamed, IsPlaceOf, KeepsNames};
ghost use Rattle.office_play.specs.Messages.{DispatchesToServer, IsQueuedAt};
ghost use Rattle.office_play.specs.Played.{Plays};
ghost use Rattle.office_play.specs.States.{kept_of};

use crate::line::{Word, say_about};
use crate::message::Message;
use crate::office::Office;
use crate::sending::say_sent;
use desk_base::Bytes;
use rel_lexer::Text;
use std::alloc::AllocError;

impl Office {
    /// A relay sends each report that it queues.
    pub(crate) fn push(&mut self, name: &Text, out: &mut Bytes) -> Result<(), AllocError>
        requires good { IsGoodOffice (kept_of self.old) }
        requires accepted { HasAccepted (kept_of self.old).rows }
        requires name { IsNamed name.now (kept_of self.old).relays }
        ensures plays { OnOk result (Plays (Pushes name.now) (kept_of self.old) out.old (kept_of self.new) out.new) }
        ensures names { OnOk result (KeepsNames (kept_of self.old) (kept_of self.new)) }
    {
        let place = self.relay_place(name);
        let queued = self.relays[place].relay.queue().len();
        if queued == 0 {
            return say_about(
                &[Word::Text("push"), Word::Text(name.as_str())],
                &[Word::Text("nothing")],
                out,
            );
        }
        for at in 0..queued {
            self.push_one(name, place, at, out)?;
        }
        Ok(())
    }

    /// The relay at this place sends the report at that place of its queue.
    fn push_one(
        &mut self,
        name: &Text,
        place: usize,
        at: usize,
        out: &mut Bytes,
    ) -> Result<(), AllocError>
        requires good { IsGoodOffice (kept_of self.old) }
        requires place { IsPlaceOf name.now (kept_of self.old).relays place }
        requires at { (report : Report) × IsQueuedAt (kept_of self.old) name.now at report }
        ensures plays { OnOk result ((report : Report) → IsQueuedAt (kept_of self.old) name.now at report
            → Plays (DispatchesToServer name.now report) (kept_of self.old) out.old (kept_of self.new) out.new) }
        ensures relays { (kept_of self.new).relays ≡ (kept_of self.old).relays }
        ensures names { OnOk result (KeepsNames (kept_of self.old) (kept_of self.new)) }
    {
        let report = self.relays[place].relay.queue()[at].copy()?;
        say_sent(self.next_number(), &report, "server", out)?;
        self.messages.push(Message::ReportToServer {
            relay: name.copy()?,
            report,
        })?;
        Ok(())
    }
}
