// The word `send`, and what every report that is sent has in common.
ghost use Rattle.std.specs.Prelude.{◌≡◌, ◌==◌, ◌++◌, OnOk, find};
ghost use Rattle.std.specs.Option.{option_map};
ghost use Rattle.report_text.specs.declared.report.Report.{Report as ShownReport};
ghost use Rattle.delivery.specs.Messages.{ReportToRelay};
ghost use Rattle.office_rules.specs.MessageWords.{Dispatches, Sends};
ghost use Rattle.office_rules.specs.OfficeLines.{sent_line};
ghost use Rattle.office_play.specs.Links.{IsGoodOffice, IsNamed, IsReportOf, KeepsNames};
ghost use Rattle.office_play.specs.Played.{Plays};
ghost use Rattle.office_play.specs.States.{kept_of};

use crate::line::{Word, say_about};
use crate::message::Message;
use crate::office::Office;
use desk_base::Bytes;
use rel_lexer::Text;
use report_text::Report;
use std::alloc::AllocError;

impl Office {
    /// A computer sends its report of this number, if its agent shows one.
    pub(crate) fn send(&mut self, name: &Text, seq: u64, out: &mut Bytes) -> Result<(), AllocError>
        requires good { IsGoodOffice (kept_of self.old) }
        requires name { IsNamed name.now (kept_of self.old).computers }
        ensures plays { OnOk result (Plays (Sends name.now seq) (kept_of self.old) out.old (kept_of self.new) out.new) }
        ensures names { OnOk result (KeepsNames (kept_of self.old) (kept_of self.new)) }
    {
        let place = self.computer_place(name);
        let computer = &self.computers[place];
        let Some(report) = report_of(computer.agent.outbox(), seq) else {
            return say_about(
                &[
                    Word::Text("send"),
                    Word::Text(name.as_str()),
                    Word::Number(seq),
                ],
                &[Word::Text("nothing")],
                out,
            );
        };
        let relay = computer.relay.copy()?;
        let report = report.copy()?;
        self.send_to_relay(relay, report, out)
    }

    /// A report goes to a relay.
    fn send_to_relay(
        &mut self,
        relay: Text,
        report: Report,
        out: &mut Bytes,
    ) -> Result<(), AllocError>
        requires good { IsGoodOffice (kept_of self.old) }
        requires relay { IsNamed relay (kept_of self.old).relays }
        requires report { IsReportOf (kept_of self.old).computers report }
        ensures plays { OnOk result (Plays (Dispatches (ReportToRelay relay report) report relay) (kept_of self.old) out.old
            (kept_of self.new) out.new) }
        ensures names { OnOk result (KeepsNames (kept_of self.old) (kept_of self.new)) }
    {
        say_sent(self.next_number(), &report, relay.as_str(), out)?;
        self.messages
            .push(Message::ReportToRelay { relay, report })?;
        Ok(())
    }
}

/// The report of this number, if it is one of these.
fn report_of(reports: &[Report], seq: u64) -> Option<&Report>
    ensures { option_map (λ report. report.now) result ≡ find (λ (report : ShownReport). report.seq == seq) reports.now }
{
    reports.iter().find(|report| report.seq == seq)
}

/// Says that the message of this number brings a report to what has this name.
pub(crate) fn say_sent<'a>(
    number: u64,
    report: &'a Report,
    to: &'a str,
    out: &mut Bytes,
) -> Result<(), AllocError>
    ensures { OnOk result (out.new ≡ out.old ++ sent_line number report.now to.now) }
{
    say_about(
        &[Word::Text("message"), Word::Number(number)],
        &[
            Word::Text("report"),
            Word::Text(report.computer.as_str()),
            Word::Number(report.seq),
            Word::Text("to"),
            Word::Text(to),
        ],
        out,
    )
}
