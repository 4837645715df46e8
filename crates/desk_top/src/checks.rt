// What is wrong first with a site.
ghost use Rattle.std.specs.Prelude.{◌≡◌, None, IsErrOf, MatchResult};
ghost use Rattle.std.specs.Io.KnownBytes.{Appends};
ghost use Rattle.desk_base.specs.Counts.{CountsFaults};
ghost use Rattle.desk_base.specs.Flow.{AppendsFront};
ghost use Rattle.site_check.specs.Lines.{finding_line};
ghost use Rattle.desk_top.specs.Asked.{TextEnds, status_of_finding};

use crate::{DeskCommand, Status};
use desk_base::{Bytes, Sink};
use rel_session::{Halt, put};
use site_check::{Finding, check_site, one_finding, say_finding};
use std::alloc::Global;

/// Writes what is found first in the text of a site.
pub(crate) fn check_input<W: Sink>(alloc: Global, input: &[u8], sink: &mut W) -> Status
    ensures ends { TextEnds DeskCommand.Check result input.now (W.told sink.old) (W.told sink.new) (sink.new ≡ sink.old) }
    ensures counts { CountsFaults (result ≡ Status.Sink) (W.told sink.old).faults (W.told sink.new).faults }
{
    // Proof: a text with another finding is no good one.
    one_finding();
    let finding = check_site(alloc, input);
    let Some(status) = status_of_finding(&finding) else {
        return Status::Memory;
    };
    match write_finding(alloc, &finding, sink) {
        Ok(()) => status,
        Err(halt) => Status::of_halt(halt),
    }
}

/// The status with which a check ends once its finding was written. None for want of memory, of which nothing is written.
fn status_of_finding(finding: &Finding) -> Option<Status>
    ensures { result ≡ status_of_finding finding.now }
{
    match finding {
        Finding::Good { .. } => Some(Status::Done),
        Finding::Memory => None,
        _ => Some(Status::Refused),
    }
}

/// Writes the line that tells a finding.
fn write_finding<W: Sink>(alloc: Global, finding: &Finding, sink: &mut W) -> Result<(), Halt>
    ensures written { MatchResult result
        (λ _. Appends (W.told sink.old).held (W.told sink.new).held (finding_line finding.now))
        (λ _. AppendsFront (W.told sink.old).held (W.told sink.new).held (finding_line finding.now)) }
    ensures counts { CountsFaults (IsErrOf result Halt.Sink) (W.told sink.old).faults (W.told sink.new).faults }
    ensures never { ¬ IsErrOf result Halt.Clock }
{
    let mut line = Bytes::new(alloc);
    say_finding(alloc, finding, &mut line)?;
    put(sink, line.as_slice())
}
