// The word `deliver`.
ghost use Rattle.std.specs.Prelude.{◌≡◌, ◌+◌, ℕ, List, [], ◌∷◌, ◌++◌, length, IfOk, OnOk, Some};
ghost use Rattle.std.specs.Option.{option_map};
ghost use Rattle.server_text.specs.declared.reply.Reply.{Reply};
ghost use Rattle.delivery.specs.Arrivals.{held_by};
ghost use Rattle.delivery.specs.Messages.{ReplyToRelay, ReportToRelay, ReportToServer, VerdictToComputer};
ghost use Rattle.delivery.specs.Schedules.{message_at};
ghost use Rattle.office_rules.specs.MessageWords.{Delivers, DeliversAnswered, DeliversAt, settled_word};
ghost use Rattle.office_rules.specs.OfficeLines.{delivered_line, answer_words};
ghost use Rattle.office_play.specs.Kept.{HasAccepted};
ghost use Rattle.office_play.specs.Links.{CanArrive, IsGoodOffice, IsNamed, KeepsNames};
ghost use Rattle.office_play.specs.Played.{Plays};
ghost use Rattle.office_play.specs.Shown.{shown_message};
ghost use Rattle.office_play.specs.States.{kept_of};

use crate::asking::answer;
use crate::line::{Word, say_about};
use crate::message::Message;
use crate::office::Office;
use agent_core::{agents_are_sound, turns_are_steps};
use delivery::a_relay_delivers_as_its_carrier;
use desk_base::Bytes;
use rel_lexer::Text;
use relay_core::RelayAnswer;
use report_text::{Report, Verdict, digest, write_report};
use server_core::{Reply, Request, a_written_report_is_read};
use std::alloc::AllocError;
use turn_lines::{reply_word, verdict_word};

impl Office {
    /// The message of this number arrives, if there is one.
    pub(crate) fn deliver(&mut self, number: u64, out: &mut Bytes) -> Result<(), AllocError>
        requires good { IsGoodOffice (kept_of self.old) }
        requires accepted { HasAccepted (kept_of self.old).rows }
        ensures plays { OnOk result (Plays (DeliversAt number) (kept_of self.old) out.old (kept_of self.new) out.new) }
        ensures names { OnOk result (KeepsNames (kept_of self.old) (kept_of self.new)) }
    {
        match self.message(number)? {
            Some(message) => self.arrive(number, message, out),
            None => say_about(
                &[Word::Text("deliver"), Word::Number(number)],
                &[Word::Text("nothing")],
                out,
            ),
        }
    }

    /// The message of this number arrives, and then its answer.
    pub(crate) fn deliver_and_answer(
        &mut self,
        number: u64,
        out: &mut Bytes,
    ) -> Result<(), AllocError>
        requires good { IsGoodOffice (kept_of self.old) }
        requires accepted { HasAccepted (kept_of self.old).rows }
        ensures plays { OnOk result (Plays (DeliversAnswered number) (kept_of self.old) out.old (kept_of self.new) out.new) }
        ensures names { OnOk result (KeepsNames (kept_of self.old) (kept_of self.new)) }
    {
        let answer = self.next_number();
        self.deliver(number, out)?;
        self.deliver(answer, out)
    }

    /// A copy of the message of this number, if there is one.
    fn message(&self, number: u64) -> Result<Option<Message>, AllocError>
        ensures { IfOk result (λ message. option_map shown_message message ≡ message_at number (kept_of self.now).messages) }
    {
        let Some(place) = number.checked_sub(1) else {
            return Ok(None);
        };
        match self.messages.get(place as usize) {
            Some(message) => Ok(Some(message.copy()?)),
            None => Ok(None),
        }
    }

    /// This message arrives.
    fn arrive(&mut self, number: u64, message: Message, out: &mut Bytes) -> Result<(), AllocError>
        requires good { IsGoodOffice (kept_of self.old) }
        requires accepted { HasAccepted (kept_of self.old).rows }
        requires message { CanArrive (kept_of self.old).relays (kept_of self.old).computers (shown_message message) }
        ensures plays { OnOk result (Plays (Delivers number (shown_message message)) (kept_of self.old) out.old (kept_of self.new)
            out.new) }
        ensures names { OnOk result (KeepsNames (kept_of self.old) (kept_of self.new)) }
    {
        match message {
            Message::ReportToRelay { relay, report } => {
                self.arrive_at_relay(number, &relay, report, out)
            }
            Message::ReportToServer { relay, report } => {
                self.arrive_at_server(number, relay, report, out)
            }
            Message::VerdictToComputer {
                computer,
                seq,
                verdict,
            } => self.settle(number, &computer, seq, &verdict, out),
            Message::ReplyToRelay {
                relay,
                computer,
                seq,
                digest,
                reply,
            } => self.note(
                number,
                &relay,
                &computer,
                seq,
                held_by(&digest, &reply),
                out,
            ),
        }
    }

    /// A report arrives at a relay, whose verdict goes back.
    fn arrive_at_relay(
        &mut self,
        number: u64,
        relay: &Text,
        report: Report,
        out: &mut Bytes,
    ) -> Result<(), AllocError>
        requires good { IsGoodOffice (kept_of self.old) }
        requires message { CanArrive (kept_of self.old).relays (kept_of self.old).computers (ReportToRelay relay.now report) }
        ensures plays { OnOk result (Plays (Delivers number (ReportToRelay relay.now report)) (kept_of self.old) out.old
            (kept_of self.new) out.new) }
        ensures names { OnOk result (KeepsNames (kept_of self.old) (kept_of self.new)) }
    {
        // Proof: what a relay answers and becomes rests on what carries the reports.
        a_relay_delivers_as_its_carrier();
        let place = self.relay_place(relay);
        let RelayAnswer::Told(verdict) = self.relays[place].relay.up(&report) else {
            return Err(AllocError);
        };
        self.say_answered(number, verdict_word(&verdict), out)?;
        self.messages.push(Message::VerdictToComputer {
            computer: report.computer,
            seq: report.seq,
            verdict,
        })?;
        Ok(())
    }

    /// A report arrives at the server, whose reply goes back to its relay.
    fn arrive_at_server(
        &mut self,
        number: u64,
        relay: Text,
        report: Report,
        out: &mut Bytes,
    ) -> Result<(), AllocError>
        requires good { IsGoodOffice (kept_of self.old) }
        requires accepted { HasAccepted (kept_of self.old).rows }
        requires message { CanArrive (kept_of self.old).relays (kept_of self.old).computers (ReportToServer relay report) }
        ensures plays { OnOk result (Plays (Delivers number (ReportToServer relay report)) (kept_of self.old) out.old
            (kept_of self.new) out.new) }
        ensures names { OnOk result (KeepsNames (kept_of self.old) (kept_of self.new)) }
    {
        // Proof: the text of a report that can be spelled asks for it to be accepted, and so the reply judges it.
        a_written_report_is_read();
        let request = Request::Report(write_report(self.alloc, &report)?);
        let digest = digest(self.alloc, &report)?;
        let reply = answer(self.alloc, &mut self.keeper, &request)?;
        let Some(word) = reply_word(&reply) else {
            unreachable!();
        };
        self.say_answered(number, word, out)?;
        self.messages.push(Message::ReplyToRelay {
            relay,
            computer: report.computer,
            seq: report.seq,
            digest,
            reply,
        })?;
        Ok(())
    }

    /// Says that a report arrived, by the word for its answer, which is the next message.
    fn say_answered(&self, number: u64, word: &str, out: &mut Bytes) -> Result<(), AllocError>
        ensures { OnOk result (out.new ≡ out.old
            ++ delivered_line number (answer_words word.now (length (kept_of self.now).messages + 1))) }
    {
        say_about(
            &[Word::Text("deliver"), Word::Number(number)],
            &[
                Word::Comma(word),
                Word::Text("message"),
                Word::Number(self.next_number()),
            ],
            out,
        )
    }

    /// A verdict arrives at its computer.
    fn settle(
        &mut self,
        number: u64,
        computer: &Text,
        seq: u64,
        verdict: &Verdict,
        out: &mut Bytes,
    ) -> Result<(), AllocError>
        requires good { IsGoodOffice (kept_of self.old) }
        requires message { CanArrive (kept_of self.old).relays (kept_of self.old).computers
            (VerdictToComputer computer.now seq verdict.now) }
        ensures plays { OnOk result (Plays (Delivers number (VerdictToComputer computer.now seq verdict.now)) (kept_of self.old) out.old
            (kept_of self.new) out.new) }
        ensures names { OnOk result (KeepsNames (kept_of self.old) (kept_of self.new)) }
    {
        // Proof: a report that is dropped is dropped from the agent's mail.
        turns_are_steps();
        let place = self.computer_place(computer);
        let agent = &mut self.computers[place].agent;
        let dropped = agent.settle(seq, verdict);
        // Proof: an agent is sound.
        agents_are_sound(agent);
        say_delivered(number, settled_word(dropped), out)
    }

    /// A reply arrives at a relay: that the server holds a report with this digest, or that it doesn't.
    fn note(
        &mut self,
        number: u64,
        relay: &Text,
        computer: &Text,
        seq: u64,
        held: Option<[u8; 32]>,
        out: &mut Bytes,
    ) -> Result<(), AllocError>
        requires good { IsGoodOffice (kept_of self.old) }
        requires relay { IsNamed relay.now (kept_of self.old).relays }
        ensures plays { OnOk result ((digest : List ℕ) (reply : Reply) → held_by digest reply ≡ held
            → Plays (Delivers number (ReplyToRelay relay.now (record { computer = computer.now; seq = seq }) digest reply))
            (kept_of self.old) out.old (kept_of self.new) out.new) }
        ensures names { OnOk result (KeepsNames (kept_of self.old) (kept_of self.new)) }
    {
        match held {
            Some(digest) => self.note_held(number, relay, computer, seq, &digest, out),
            None => say_delivered(number, "noted", out),
        }
    }

    /// A reply arrives at a relay: that the server holds a report with this digest.
    fn note_held(
        &mut self,
        number: u64,
        relay: &Text,
        computer: &Text,
        seq: u64,
        held: &[u8; 32],
        out: &mut Bytes,
    ) -> Result<(), AllocError>
        requires good { IsGoodOffice (kept_of self.old) }
        requires relay { IsNamed relay.now (kept_of self.old).relays }
        ensures plays { OnOk result ((digest : List ℕ) (reply : Reply) → held_by digest reply ≡ Some held.now
            → Plays (Delivers number (ReplyToRelay relay.now (record { computer = computer.now; seq = seq }) digest reply))
            (kept_of self.old) out.old (kept_of self.new) out.new) }
        ensures names { OnOk result (KeepsNames (kept_of self.old) (kept_of self.new)) }
    {
        // Proof: what a relay becomes rests on what carries the reports.
        a_relay_delivers_as_its_carrier();
        let place = self.relay_place(relay);
        self.relays[place].relay.sent(computer, seq, held);
        say_delivered(number, "noted", out)
    }
}

/// Whether a report was dropped, as it is said.
fn settled_word(dropped: bool) -> &'static str
    ensures { result.now ≡ settled_word dropped }
{
    if dropped { "dropped" } else { "kept" }
}

/// The digest of the report that the server holds, by its reply to one with this digest. None where it holds none.
fn held_by(digest: &[u8; 32], reply: &Reply) -> Option<[u8; 32]>
    ensures { result ≡ held_by digest.now reply.now }
{
    match reply {
        Reply::Ok | Reply::Again => Some(*digest),
        Reply::Conflict(kept) => Some(*kept),
        _ => None,
    }
}

/// Says what came of an answer that arrived.
fn say_delivered(number: u64, word: &str, out: &mut Bytes) -> Result<(), AllocError>
    ensures { OnOk result (out.new ≡ out.old ++ delivered_line number (word.now ∷ [])) }
{
    say_about(
        &[Word::Text("deliver"), Word::Number(number)],
        &[Word::Text(word)],
        out,
    )
}
