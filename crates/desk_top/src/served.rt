// Conversations over the keeper and the door.
ghost use Rattle.std.specs.Prelude.{◌≡◌};
ghost use Rattle.desk_top.specs.AllDevices.{scene};
ghost use Rattle.desk_top.specs.Served.{CountsServe, ServeEnds};

use crate::Status;
use crate::command::ServeWords;
use desk_base::{Put, Sink};
use desk_door::Door;
use desk_keep::{Applied, Keeper};
use desk_serve::{serve, what_ends_serving_was_counted};
use server_core::{Limits, Server};
use std::alloc::Global;

/// Opens what is kept, then the door, and serves the conversations that the words ask for.
#[tactic(auto, using(crate::proofs::Serving::cut_ends, crate::proofs::Serving::opened_counts, crate::proofs::Serving::unopened_counts))]
pub(crate) fn serve_asked<W: Sink, K: Keeper, D: Door>(
    alloc: Global,
    asked: ServeWords,
    keeper: &mut K,
    door: &mut D,
    sink: &mut W,
) -> Status
    ensures ends { ServeEnds asked.entry result (scene (D.told door.old) (K.told keeper.old) (W.told sink.old))
        (scene (D.told door.new) (K.told keeper.new) (W.told sink.new)) (sink.new ≡ sink.old) (door.new ≡ door.old) }
    ensures counts { CountsServe result (scene (D.told door.old) (K.told keeper.old) (W.told sink.old))
        (scene (D.told door.new) (K.told keeper.new) (W.told sink.new)) }
{
    // Proof: how serving ends tells which counts rose.
    what_ends_serving_was_counted();
    match keeper.open(asked.keep) {
        Applied::Done => {}
        Applied::Failed => return Status::Keeper,
        Applied::Memory => return Status::Memory,
    }
    match door.open(asked.port) {
        Put::Done => {}
        Put::Failed => return Status::Door,
    }
    let server = Server::new(Limits::of_the_desk());
    match serve(alloc, &server, door, keeper, sink, asked.count) {
        Ok(()) => Status::Done,
        Err(stop) => Status::of_stop(stop),
    }
}
