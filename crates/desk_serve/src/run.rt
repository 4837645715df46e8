ghost use Rattle.desk_serve.specs.ServeSteps.{Scene};
ghost use Rattle.desk_serve.specs.ServeRuns.{ServesAll};

use crate::step::{Stop, serve_next};
use desk_base::Sink;
use desk_http::{Door, Paths};
use desk_keep::Keeper;
use server_core::Server;
use std::alloc::Global;

/// Serves so many conversations, one after another, and writes the line of each. The first step that breaks ends the run.
#[tactic(auto, using(crate::proofs::Serving::served_none, crate::proofs::Serving::served_cut))]
pub fn serve<D: Door, K: Keeper, W: Sink>(
    alloc: Global,
    server: &Server,
    door: &mut D,
    keeper: &mut K,
    sink: &mut W,
    count: u32,
) -> Result<(), Stop>
    ensures { ServesAll server.now.limits
        (record { door = D.told door.old; keeper = K.told keeper.old; sink = W.told sink.old }) count result
        (record { door = D.told door.new; keeper = K.told keeper.new; sink = W.told sink.new }) }
{
    let paths = Paths::new(alloc);
    for _ in 0..count {
        serve_next(alloc, &paths, server, door, keeper, sink)?;
    }
    Ok(())
}
