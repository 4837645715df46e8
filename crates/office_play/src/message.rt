ghost use Rattle.std.specs.Prelude.{◌≡◌, IfOk};

use rel_lexer::Text;
use report_text::{Report, Verdict};
use server_core::Reply;
use std::alloc::AllocError;

/// What is on its way, or arrived.
#[derive(Drop)]
pub(crate) enum Message {
    /// From its computer to the relay of this name.
    ReportToRelay {
        relay: Text,
        report: Report,
    },
    /// From the relay of this name to the server.
    ReportToServer {
        relay: Text,
        report: Report,
    },
    /// To the computer of this name, about its report of this number.
    VerdictToComputer {
        computer: Text,
        seq: u64,
        verdict: Verdict,
    },
    /// To the relay of this name, about a report of this computer and number, whose text has this SHA-256.
    ReplyToRelay {
        relay: Text,
        computer: Text,
        seq: u64,
        digest: [u8; 32],
        reply: Reply,
    },
}

impl Message {
    /// The same message once more. The error is want of memory.
    pub(crate) fn copy(&self) -> Result<Message, AllocError>
        ensures { IfOk result (λ message. message ≡ self.now) }
    {
        Ok(match self {
            Message::ReportToRelay { relay, report } => Message::ReportToRelay {
                relay: relay.copy()?,
                report: report.copy()?,
            },
            Message::ReportToServer { relay, report } => Message::ReportToServer {
                relay: relay.copy()?,
                report: report.copy()?,
            },
            Message::VerdictToComputer {
                computer,
                seq,
                verdict,
            } => Message::VerdictToComputer {
                computer: computer.copy()?,
                seq: *seq,
                verdict: *verdict,
            },
            Message::ReplyToRelay {
                relay,
                computer,
                seq,
                digest,
                reply,
            } => Message::ReplyToRelay {
                relay: relay.copy()?,
                computer: computer.copy()?,
                seq: *seq,
                digest: *digest,
                reply: reply.copy()?,
            },
        })
    }
}
