// A relay at work.
ghost use Rattle.std.specs.Prelude.{◌≡◌, MatchResult};
ghost use Rattle.std.specs.declared.option.Option.{Option};
ghost use Rattle.desk_base.specs.Flow.{Writes};
ghost use Rattle.desk_door.specs.Doors.{DoorView};
ghost use Rattle.desk_hosts.specs.RelayCalls.{RelayCalls};
ghost use Rattle.desk_http.specs.Conversing.{Converses, OnlyTalks};
ghost use Rattle.relay_cache.specs.CachedFiles.{CacheState};
ghost use Rattle.route_rules.specs.declared.route.Routes.TheVariants as routes;
ghost use Rattle.desk_runs.specs.RelayRuns.{GoesNext, RelaysAll, RoundsNext, TalksNext};
ghost use Rattle.desk_runs.specs.RelaySteps.{relay_scene};

use desk_base::{Bytes, Put, Sink};
use desk_hosts::RelayHost;
use desk_http::{Door, Link, Met, Paths, Routes, converse};
use desk_rounds::relay_round;
use desk_serve::{Stop, talk_line};
use relay_cache::FileCache;
use relay_core::Relay;
use std::alloc::Global;

/// Makes an upstream round, and then holds so many conversations, one after another, with an upstream round after each. The lines of each
/// step are written as it ends. Files that are asked for are kept where there is a cache. The first step that breaks ends the run.
#[tactic(auto, using(crate::proofs::GrowingRelays::relayed_cut))]
pub fn relay_all<D: Door, L: Link, W: Sink>(
    alloc: Global,
    relay: &mut Relay,
    door: &mut D,
    link: &mut L,
    cache: &mut Option<FileCache>,
    sink: &mut W,
    count: u32,
) -> Result<(), Stop>
    ensures { RelaysAll (relay_scene (D.told door.old) relay.old (L.told link.old) cache.old (W.told sink.old)) count result
        (relay_scene (D.told door.new) relay.new (L.told link.new) cache.new (W.told sink.new)) }
{
    let paths = Paths::new(alloc);
    make_round(alloc, relay, link, sink)?;
    for _ in 0..count {
        talk_and_round(alloc, &paths, relay, door, link, cache, sink)?;
    }
    Ok(())
}

/// The next conversation, and the round after it.
fn talk_and_round<D: Door, L: Link, W: Sink>(
    alloc: Global,
    paths: &Paths,
    relay: &mut Relay,
    door: &mut D,
    link: &mut L,
    cache: &mut Option<FileCache>,
    sink: &mut W,
) -> Result<(), Stop>
    ensures { GoesNext (relay_scene (D.told door.old) relay.old (L.told link.old) cache.old (W.told sink.old)) result
        (relay_scene (D.told door.new) relay.new (L.told link.new) cache.new (W.told sink.new)) }
{
    answer_next(alloc, paths, relay, door, link, cache, sink)?;
    make_round(alloc, relay, link, sink)
}

/// An upstream round, and its lines.
fn make_round<L: Link, W: Sink>(
    alloc: Global,
    relay: &mut Relay,
    link: &mut L,
    sink: &mut W,
) -> Result<(), Stop>
    ensures { (door : DoorView) (cache : Option CacheState)
        → RoundsNext (relay_scene door relay.old (L.told link.old) cache (W.told sink.old)) result
        (relay_scene door relay.new (L.told link.new) cache (W.told sink.new)) }
{
    let mut lines = Bytes::new(alloc);
    match relay_round(alloc, relay, link, &mut lines) {
        Ok(()) => say(sink, lines.as_slice()),
        Err(_) => Err(Stop::Memory),
    }
}

/// The next conversation, and its line.
fn answer_next<D: Door, L: Link, W: Sink>(
    alloc: Global,
    paths: &Paths,
    relay: &mut Relay,
    door: &mut D,
    link: &mut L,
    cache: &mut Option<FileCache>,
    sink: &mut W,
) -> Result<(), Stop>
    ensures { TalksNext (relay_scene (D.told door.old) relay.old (L.told link.old) cache.old (W.told sink.old)) result
        (relay_scene (D.told door.new) relay.new (L.told link.new) cache.new (W.told sink.new)) }
{
    match door.next() {
        Put::Done => {}
        Put::Failed => return Err(Stop::Door),
    }
    match talk(alloc, paths, relay, door, link, cache) {
        Met::Memory => Err(Stop::Memory),
        met => say(sink, talk_line(met).as_str().as_bytes()),
    }
}

/// One conversation, with a door that has begun it.
fn talk<D: Door, L: Link>(
    alloc: Global,
    paths: &Paths,
    relay: &mut Relay,
    door: &mut D,
    link: &mut L,
    cache: &mut Option<FileCache>,
) -> Met
    ensures talks { Converses RelayCalls routes.Relay (D.told door.old)
        (record { relay = relay.old; files = record { link = L.told link.old; cache = cache.old } }) result
        (D.told door.new) (record { relay = relay.new; files = record { link = L.told link.new; cache = cache.new } }) }
    ensures only { OnlyTalks (D.told door.old) (D.told door.new) }
{
    let mut host = RelayHost {
        alloc,
        paths,
        relay,
        link,
        cache,
    };
    converse(alloc, door, &mut host, paths, Routes::Relay)
}

/// Writes the lines of a step.
fn say<W: Sink>(sink: &mut W, lines: &[u8]) -> Result<(), Stop>
    ensures { MatchResult result (λ _. Writes lines.now (W.told sink.old) Put.Done (W.told sink.new))
        (λ why. (why ≡ Stop.Sink) × Writes lines.now (W.told sink.old) Put.Failed (W.told sink.new)) }
{
    match sink.write(lines) {
        Put::Done => Ok(()),
        Put::Failed => Err(Stop::Sink),
    }
}
