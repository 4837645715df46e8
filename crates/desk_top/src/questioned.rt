// Questions over what a keeper keeps.
ghost use Rattle.std.specs.Prelude.{◌≡◌};
ghost use Rattle.desk_top.specs.Questioned.{CountsSession, SessionEnds};
ghost use Rattle.session_view.specs.Asking.{table_devices};

use crate::Status;
use crate::command::SessionWords;
use desk_base::{Clock, Sink};
use desk_keep::{Applied, Keeper};
use session_view::answer_over_tables;
use std::alloc::Global;

/// Opens what is kept, and answers the lines of an input over its tables.
#[tactic(auto, using(crate::proofs::Questioning::cut_ends, crate::proofs::Questioning::opened_counts, crate::proofs::Questioning::unopened_counts))]
pub(crate) fn session_asked<W: Sink, K: Keeper, C: Clock>(
    alloc: Global,
    asked: SessionWords,
    input: &[u8],
    sink: &mut W,
    keeper: &mut K,
    clock: &mut C,
) -> Status
    ensures ends { SessionEnds result input.now (table_devices (W.told sink.old) (K.told keeper.old) (C.told clock.old))
        (table_devices (W.told sink.new) (K.told keeper.new) (C.told clock.new)) ((sink.new ≡ sink.old) × (clock.new ≡ clock.old)) }
    ensures counts { CountsSession result (table_devices (W.told sink.old) (K.told keeper.old) (C.told clock.old))
        (table_devices (W.told sink.new) (K.told keeper.new) (C.told clock.new)) }
{
    match keeper.open(asked.keep) {
        Applied::Done => {}
        Applied::Failed => return Status::Keeper,
        Applied::Memory => return Status::Memory,
    }
    match answer_over_tables(alloc, input, sink, keeper, clock) {
        Ok(()) => Status::Done,
        Err(halt) => Status::of_halt(halt),
    }
}
