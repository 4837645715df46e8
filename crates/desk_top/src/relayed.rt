// A relay between its upstream and the door.
ghost use Rattle.std.specs.Prelude.{◌≡◌, IfOk, IfSome};
ghost use Rattle.relay_cache.specs.CachedFiles.{IsRoom};
ghost use Rattle.desk_top.specs.Relayed.{CountsRelay, RelayEnds, empty_cache, relay_devices};

use crate::Status;
use crate::command::RelayWords;
use desk_base::{Put, Sink};
use desk_door::{Door, Link};
use desk_runs::{relay_all, what_ends_a_relay_was_counted};
use relay_cache::FileCache;
use relay_core::Relay;
use std::alloc::{AllocError, Global};

/// Names the upstream, opens the door, and has a relay at work that keeps nothing yet, with a cache where the words give it room.
#[tactic(auto, using(crate::proofs::RelayEndings::relay_unopened))]
pub(crate) fn relay_asked<W: Sink, D: Door, L: Link>(
    alloc: Global,
    asked: RelayWords,
    door: &mut D,
    link: &mut L,
    sink: &mut W,
) -> Status
    requires { IfSome asked.room IsRoom }
    ensures ends { RelayEnds asked.entry result
        (relay_devices (D.told door.old) (L.told link.old) (W.told sink.old))
        (relay_devices (D.told door.new) (L.told link.new) (W.told sink.new)) (sink.new ≡ sink.old) (door.new ≡ door.old) }
    ensures counts { CountsRelay result
        (relay_devices (D.told door.old) (L.told link.old) (W.told sink.old))
        (relay_devices (D.told door.new) (L.told link.new) (W.told sink.new)) }
{
    match cache_with(alloc, asked.room) {
        Ok(mut cache) => relay_with(alloc, asked, &mut cache, door, link, sink),
        Err(_) => Status::Memory,
    }
}

/// A cache with so much room, where there is any. The error is want of memory.
fn cache_with(alloc: Global, room: Option<u32>) -> Result<Option<FileCache>, AllocError>
    requires { IfSome room IsRoom }
    ensures { IfOk result (λ cache. cache ≡ empty_cache room) }
{
    match room {
        Some(room) => Ok(Some(FileCache::new(alloc, room as usize)?)),
        None => Ok(None),
    }
}

/// The same, with that cache.
#[tactic(auto, using(crate::proofs::RelayEndings::relay_cut_ends, crate::proofs::RelayEndings::relay_opened, crate::proofs::RelayEndings::relay_unopened))]
fn relay_with<W: Sink, D: Door, L: Link>(
    alloc: Global,
    asked: RelayWords,
    cache: &mut Option<FileCache>,
    door: &mut D,
    link: &mut L,
    sink: &mut W,
) -> Status
    requires { cache.old ≡ empty_cache asked.room }
    ensures ends { RelayEnds asked.entry result
        (relay_devices (D.told door.old) (L.told link.old) (W.told sink.old))
        (relay_devices (D.told door.new) (L.told link.new) (W.told sink.new)) (sink.new ≡ sink.old) (door.new ≡ door.old) }
    ensures counts { CountsRelay result
        (relay_devices (D.told door.old) (L.told link.old) (W.told sink.old))
        (relay_devices (D.told door.new) (L.told link.new) (W.told sink.new)) }
{
    // Proof: how a relay ends tells which counts rose.
    what_ends_a_relay_was_counted();
    if link.open(asked.upstream).is_err() {
        return Status::Memory;
    }
    match door.open(asked.port) {
        Put::Done => {}
        Put::Failed => return Status::Door,
    }
    let mut relay = Relay::of_the_desk(alloc);
    match relay_all(alloc, &mut relay, door, link, cache, sink, asked.count) {
        Ok(()) => Status::Done,
        Err(stop) => Status::of_stop(stop),
    }
}
