// The word `report`.
ghost use Rattle.std.specs.Prelude.{◌≡◌, IfOk, OnOk, Some};
ghost use Rattle.delivery.specs.Messages.{named};
ghost use Rattle.office_rules.specs.MessageWords.{ReportsAll, ReportsOne, shown_numbers};
ghost use Rattle.office_rules.specs.Offices.{PlayedComputer};
ghost use Rattle.office_play.specs.Kept.{HasAccepted};
ghost use Rattle.office_play.specs.Links.{IsGoodOffice, IsNamed, KeepsNames};
ghost use Rattle.office_play.specs.Played.{Plays};
ghost use Rattle.office_play.specs.States.{kept_of};

use crate::office::Office;
use desk_base::Bytes;
use rel_lexer::Text;
use std::alloc::AllocError;

impl Office {
    /// A computer sends each report that its agent shows; each arrives and is answered before the next.
    pub(crate) fn report(&mut self, name: &Text, out: &mut Bytes) -> Result<(), AllocError>
        requires good { IsGoodOffice (kept_of self.old) }
        requires accepted { HasAccepted (kept_of self.old).rows }
        requires name { IsNamed name.now (kept_of self.old).computers }
        ensures plays { OnOk result (Plays (ReportsAll name.now) (kept_of self.old) out.old (kept_of self.new) out.new) }
        ensures names { OnOk result (KeepsNames (kept_of self.old) (kept_of self.new)) }
    {
        let numbers = self.shown_numbers(name)?;
        for seq in &numbers {
            self.report_one(name, *seq, out)?;
        }
        Ok(())
    }

    /// The numbers of the reports that a computer's agent shows.
    fn shown_numbers(&self, name: &Text) -> Result<Vec<u64>, AllocError>
        requires good { IsGoodOffice (kept_of self.now) }
        requires name { IsNamed name.now (kept_of self.now).computers }
        ensures { IfOk result (λ numbers. (computer : PlayedComputer) × (named name.now (kept_of self.now).computers ≡ Some computer)
            × (numbers.items ≡ shown_numbers computer.agent)) }
    {
        let place = self.computer_place(name);
        let mut numbers = Vec::new(self.alloc);
        for report in self.computers[place].agent.outbox() {
            numbers.push(report.seq)?;
        }
        Ok(numbers)
    }

    /// A computer sends the report of this number, which arrives and is answered.
    fn report_one(&mut self, name: &Text, seq: u64, out: &mut Bytes) -> Result<(), AllocError>
        requires good { IsGoodOffice (kept_of self.old) }
        requires accepted { HasAccepted (kept_of self.old).rows }
        requires name { IsNamed name.now (kept_of self.old).computers }
        ensures plays { OnOk result (Plays (ReportsOne name.now seq) (kept_of self.old) out.old (kept_of self.new) out.new) }
        ensures names { OnOk result (KeepsNames (kept_of self.old) (kept_of self.new)) }
    {
        let number = self.next_number();
        self.send(name, seq, out)?;
        self.deliver_and_answer(number, out)
    }
}
