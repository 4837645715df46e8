// The play of an office.
ghost use Rattle.std.specs.Prelude.{◌≡◌};
ghost use Rattle.desk_base.specs.Counts.{CountsFaults};
ghost use Rattle.desk_top.specs.Asked.{TextEnds, status_of_play};

use crate::questions::refuse;
use crate::{DeskCommand, Status};
use desk_base::Sink;
use office_play::{PlayEnd, play_office};
use office_text::{OfficeError, an_office_is_read, read_office};
use std::alloc::Global;

/// Plays the office whose text an input is, over devices in memory.
pub(crate) fn play_input<W: Sink>(alloc: Global, input: &[u8], sink: &mut W) -> Status
    ensures ends { TextEnds DeskCommand.Office result input.now (W.told sink.old) (W.told sink.new) (sink.new ≡ sink.old) }
    ensures counts { CountsFaults (result ≡ Status.Sink) (W.told sink.old).faults (W.told sink.new).faults }
{
    // Proof: an input that is refused is none with the text of an office.
    an_office_is_read();
    match read_office(alloc, input) {
        Ok(orders) => status_of_play(play_office(alloc, orders, sink)),
        Err(OfficeError::BadLine(number)) => refuse(alloc, number, sink),
        Err(OfficeError::Memory) => Status::Memory,
    }
}

/// The status of a run that plays an office, by how the play ended.
fn status_of_play(end: PlayEnd) -> Status
    ensures { result ≡ status_of_play end }
{
    match end {
        PlayEnd::Done => Status::Done,
        PlayEnd::Failed => Status::Sink,
        PlayEnd::Memory => Status::Memory,
    }
}
