ghost use Rattle.desk_http.specs.Conversing.{Converses, OnlyTalks};
ghost use Rattle.route_rules.specs.declared.route.Routes.TheVariants as routes;
ghost use Rattle.desk_hosts.specs.ServerCalls.{ServerCalls};
ghost use Rattle.desk_serve.specs.ServeSteps.{SaysLine, ServesNext};

use crate::line::talk_line;
use desk_base::{Put, Sink};
use desk_hosts::ServerHost;
use desk_http::{Door, Met, Paths, Routes, converse};
use desk_keep::Keeper;
use server_core::Server;
use std::alloc::Global;

/// Why a server stopped before it had served all its conversations.
#[derive(Clone, Copy)]
pub enum Stop {
    /// The door failed to begin the next one.
    Door,
    /// The sink failed.
    Sink,
    /// Memory ran out.
    Memory,
}

/// The next conversation, and its line.
pub(crate) fn serve_next<D: Door, K: Keeper, W: Sink>(
    alloc: Global,
    paths: &Paths,
    server: &Server,
    door: &mut D,
    keeper: &mut K,
    sink: &mut W,
) -> Result<(), Stop>
    ensures { ServesNext server.now.limits
        (record { door = D.told door.old; keeper = K.told keeper.old; sink = W.told sink.old }) result
        (record { door = D.told door.new; keeper = K.told keeper.new; sink = W.told sink.new }) }
{
    match door.next() {
        Put::Done => {}
        Put::Failed => return Err(Stop::Door),
    }
    match talk(alloc, paths, server, door, keeper) {
        Met::Memory => Err(Stop::Memory),
        met => say(sink, met),
    }
}

/// One conversation, with a door that has begun it.
fn talk<D: Door, K: Keeper>(
    alloc: Global,
    paths: &Paths,
    server: &Server,
    door: &mut D,
    keeper: &mut K,
) -> Met
    ensures talks { Converses ServerCalls routes.Server (D.told door.old)
        (record { limits = server.now.limits; keeper = K.told keeper.old }) result
        (D.told door.new) (record { limits = server.now.limits; keeper = K.told keeper.new }) }
    ensures only { OnlyTalks (D.told door.old) (D.told door.new) }
{
    let mut host = ServerHost {
        alloc,
        paths,
        server,
        keeper,
    };
    converse(alloc, door, &mut host, paths, Routes::Server)
}

/// Writes the line of a conversation.
fn say<W: Sink>(sink: &mut W, met: Met) -> Result<(), Stop>
    ensures { SaysLine (W.told sink.old) met result (W.told sink.new) }
{
    let line = talk_line(met);
    match sink.write(line.as_str().as_bytes()) {
        Put::Done => Ok(()),
        Put::Failed => Err(Stop::Sink),
    }
}
