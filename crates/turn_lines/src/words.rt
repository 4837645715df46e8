// The words for what becomes of a report.
ghost use Rattle.std.specs.Prelude.{◌≡◌, MatchOption, None, Some};
ghost use Rattle.turn_lines.specs.VerdictWords as spelled;

use report_text::Verdict;
use server_text::Reply;

/// The word for the verdict of a relay.
pub fn verdict_word(verdict: &Verdict) -> &'static str
    ensures { result.now ≡ spelled.verdict_word verdict.now }
{
    match verdict {
        Verdict::Stored => "stored",
        Verdict::Carried => "carried",
        Verdict::Conflict(_) => "conflict",
        Verdict::Full(_) => "full",
    }
}

/// The word for a server's reply to a report, where it judges it: `ok`, `again`, `conflict` or `full`.
pub fn reply_word(reply: &Reply) -> Option<&'static str>
    ensures { MatchOption result (spelled.reply_word reply.now ≡ None) (λ word. spelled.reply_word reply.now ≡ Some word.now) }
{
    match reply {
        Reply::Ok => Some("ok"),
        Reply::Again => Some("again"),
        Reply::Conflict(_) => Some("conflict"),
        Reply::Full(_) => Some("full"),
        _ => None,
    }
}
