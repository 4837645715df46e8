ghost use Rattle.std.specs.Prelude.{◌≡◌, ◌++◌};
ghost use Rattle.http.specs.StatusCode.{IsStatusCode};
ghost use Rattle.desk_door.specs.Doors.{WritesOut};
ghost use Rattle.desk_http.specs.Spoken.{spoken, memory_text};
ghost use Rattle.desk_http.specs.Conversing.{Converses, OnlyTalks};
ghost use Rattle.desk_http.specs.Reading.{IsTakenWithin};
ghost use Rattle.desk_http.specs.Replying.{Replies, Talks, WritesMemory, met_of};

use crate::host::{Called, Site2};
use crate::request::{Taken, read_request};
use crate::response::{head_of, memory_response};
use desk_base::{Bytes, Put};
use desk_door::Door;
use http::StatusCode;
use route_rules::{Paths, Routes};
use std::alloc::Global;

/// The most bytes of a body that is written together with its head.
const SMALL_BODY: usize = 16_384;

/// How a conversation ended.
#[derive(Clone, Copy)]
pub enum Met {
    /// A response of this status was written.
    Answered(u16),
    /// The peer said nothing, and nothing was written.
    Closed,
    /// The door failed, and its count of faults went up.
    DoorFault,
    /// Memory ran out. The response that says so was written, as far as the door took it.
    Memory,
}

/// Reads one request, calls the host where it is a call, writes the response, and closes.
pub fn converse<D: Door, H: Site2>(
    alloc: Global,
    door: &mut D,
    host: &mut H,
    paths: &Paths,
    routes: Routes,
) -> Met
    ensures talks { Converses H.calls routes (D.told door.old) (H.told host.old) result (D.told door.new) (H.told host.new) }
    ensures only { OnlyTalks (D.told door.old) (D.told door.new) }
    ensures holds { H.holds host.new ≡ H.holds host.old }
{
    let mut buf = Bytes::new(alloc);
    let taken = read_request(alloc, door, &mut buf, paths, routes);
    let met = respond(alloc, door, host, buf.as_slice(), taken);
    door.close(taken.is_whole());
    met
}

/// Answers what was taken.
fn respond<D: Door, H: Site2>(
    alloc: Global,
    door: &mut D,
    host: &mut H,
    bytes: &[u8],
    taken: Taken,
) -> Met
    requires { IsTakenWithin bytes.now taken }
    ensures talks { Talks H.calls (D.told door.old) (H.told host.old) bytes.now taken result (D.told door.new) (H.told host.new) }
    ensures holds { H.holds host.new ≡ H.holds host.old }
{
    match taken {
        Taken::Call(call) => {
            match host.call(call.asking, call.path.of(bytes), call.body.of(bytes)) {
                Called::Answer(status, body) => reply(alloc, door, status, body.as_slice()),
                Called::Memory => no_memory(door),
            }
        }
        Taken::Refused { refusal, .. } => met_of(refusal.status(), door.write(refusal.response())),
        Taken::Closed => Met::Closed,
        Taken::Failed => Met::DoorFault,
        Taken::Memory => no_memory(door),
    }
}

/// Writes the response of a status and a body.
fn reply<D: Door>(alloc: Global, door: &mut D, status: u16, body: &[u8]) -> Met
    requires { IsStatusCode status }
    ensures { Replies status body.now (D.told door.old) result (D.told door.new) }
{
    let code = StatusCode::from_u16(status).unwrap();
    let Ok(mut text) = head_of(alloc, code, body.len()) else {
        return no_memory(door);
    };
    if body.len() > SMALL_BODY {
        return met_of(status, write_both(door, text.as_slice(), body));
    }
    match text.extend(body) {
        Ok(()) => met_of(status, door.write(text.as_slice())),
        Err(_) => no_memory(door),
    }
}

/// Writes two pieces, the second where the first was written whole.
fn write_both<D: Door>(door: &mut D, first: &[u8], second: &[u8]) -> Put
    ensures { WritesOut (first.now ++ second.now) (D.told door.old) result (D.told door.new) }
{
    match door.write(first) {
        Put::Done => door.write(second),
        Put::Failed => Put::Failed,
    }
}

fn met_of(status: u16, answer: Put) -> Met
    ensures { result ≡ met_of status answer }
{
    match answer {
        Put::Done => Met::Answered(status),
        Put::Failed => Met::DoorFault,
    }
}

/// Writes the response that says that memory ran out.
fn no_memory<D: Door>(door: &mut D) -> Met
    ensures memory { result ≡ Met.Memory }
    ensures writes { WritesMemory (D.told door.old) (D.told door.new) }
{
    door.write(memory_response());
    Met::Memory
}
