// Reading from a door: a head, and what stands behind it.
ghost use Rattle.std.specs.Prelude.{◌≡◌, ◌<◌, [], length};
ghost use Rattle.desk_http.specs.Reading.{OnlyReads, ReadsHead, ReadsRest, TakesSome};

use desk_base::{Bytes, Room};
use desk_door::{Door, DoorGot};
use httparse::Status;
use httparse::spans::{HeaderSpan, RequestSpans, parse_request};
use std::alloc::{AllocError, Global};

/// The most bytes of a head.
pub(crate) const HEAD_LIMIT: usize = 16_384;

/// What taking some bytes answers.
enum Step {
    Taken,
    End,
    Failed,
    Memory,
}

/// Takes some bytes onto the buffer, at most so many and no more than the room has.
fn take<D: Door>(door: &mut D, room: &mut [u8], buf: &mut Bytes, most: usize) -> Step
    requires most { 0 < most }
    requires room { 0 < length room.old }
    ensures room { length room.new ≡ length room.old }
    ensures takes { TakesSome (D.told door.old).left (D.told door.new).left buf.old buf.new most result }
    ensures only { OnlyReads (result ≡ Step.Failed) (D.told door.old) (D.told door.new) }
{
    let size = most.min(room.len());
    let part = &mut room[..size];
    match door.read(part) {
        DoorGot::Some(count) => match buf.extend(&part[..count]) {
            Ok(()) => Step::Taken,
            Err(_) => Step::Memory,
        },
        DoorGot::End => Step::End,
        DoorGot::Failed => Step::Failed,
    }
}

/// What reading a head answers.
pub(crate) enum Head {
    Read(RequestSpans),
    /// There is no head, or none within the limits.
    Bad,
    /// There was no byte.
    Closed,
    Failed,
    Memory,
}

/// Reads a head, and perhaps some bytes behind it, 16,384 bytes in all at most.
pub(crate) fn read_head<D: Door>(
    door: &mut D,
    room: &mut [u8],
    buf: &mut Bytes,
    fields: &mut [HeaderSpan],
) -> Head
    requires empty { buf.old ≡ [] }
    requires fields { length fields.old ≡ 64 }
    requires room { 0 < length room.old }
    ensures fields { length fields.new ≡ 64 }
    ensures room { length room.new ≡ length room.old }
    ensures reads { ReadsHead (D.told door.old).left (D.told door.new).left buf.new fields.new result }
    ensures only { OnlyReads (result ≡ Head.Failed) (D.told door.old) (D.told door.new) }
{
    'heads: while buf.as_slice().len() < HEAD_LIMIT {
        let most = HEAD_LIMIT - buf.as_slice().len();
        match take(door, room, buf, most) {
            Step::Taken => {}
            Step::End => {
                return if buf.as_slice().is_empty() {
                    Head::Closed
                } else {
                    Head::Bad
                };
            }
            Step::Failed => return Head::Failed,
            Step::Memory => return Head::Memory,
        }
        match parse_request(buf.as_slice(), fields) {
            Ok(Status::Complete(head)) => return Head::Read(head),
            Ok(Status::Partial) => {}
            Err(_) => return Head::Bad,
        }
    }
    Head::Bad
}

/// What reading on answers.
pub(crate) enum Rest {
    Whole,
    Cut,
    Failed,
    Memory,
}

/// Makes room for so many bytes in all.
fn make_room(alloc: Global, buf: &mut Bytes, size: usize) -> Result<(), AllocError>
    ensures { buf.new ≡ buf.old }
{
    if size <= buf.as_slice().len() {
        return Ok(());
    }
    let mut roomy = Room::with_capacity(alloc, size)?;
    roomy.extend(buf.as_slice());
    *buf = roomy.into_bytes();
    Ok(())
}

/// Reads until there are so many bytes in all. The room for them is made once, before the first is read.
pub(crate) fn read_rest<D: Door>(
    alloc: Global,
    door: &mut D,
    room: &mut [u8],
    buf: &mut Bytes,
    upto: usize,
) -> Rest
    requires { 0 < length room.old }
    ensures reads { ReadsRest (D.told door.old).left (D.told door.new).left buf.old buf.new upto result }
    ensures only { OnlyReads (result ≡ Rest.Failed) (D.told door.old) (D.told door.new) }
{
    if make_room(alloc, buf, upto).is_err() {
        return Rest::Memory;
    }
    'pieces: while buf.as_slice().len() < upto {
        let most = upto - buf.as_slice().len();
        match take(door, room, buf, most) {
            Step::Taken => {}
            Step::End => return Rest::Cut,
            Step::Failed => return Rest::Failed,
            Step::Memory => return Rest::Memory,
        }
    }
    Rest::Whole
}
