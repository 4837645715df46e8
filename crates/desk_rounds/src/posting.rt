// The part of a round in which reports are posted.
ghost use Rattle.std.specs.Prelude.{◌≡◌, ◌<◌, ◌-◌, ◌^◌, length, List};
ghost use Rattle.desk_rounds.specs.Clients.{at};
ghost use Rattle.desk_rounds.specs.Lines.{Line};
ghost use Rattle.desk_rounds.specs.Parts.{Prints};
ghost use Rattle.desk_rounds.specs.Posting.{PostsAll, PostsAt, missed, next_posted, place_after, settled};
ghost use Rattle.desk_rounds.specs.Ways.{way};

use crate::asking::post_report;
use crate::client::Client;
use crate::line::say_miss;
use crate::part::Next;
use crate::way::said;
use desk_base::Bytes;
use desk_http::Link;
use rel_lexer::Text;
use std::alloc::{AllocError, Global};

/// What became of a report that was posted.
#[derive(Clone, Copy)]
pub enum Posted {
    /// It is none of those that there are to post any more.
    Gone,
    Stays,
    /// The exchange failed.
    NoAnswer,
    /// Want of memory.
    Memory,
}

/// Posts each report that there is to post, the oldest first.
pub(crate) fn post_reports<C: Client, L: Link>(
    alloc: Global,
    client: &mut C,
    link: &mut L,
    second: &mut Option<Text>,
    out: &mut Bytes,
) -> Next
    requires { C.sound (C.told client.old) }
    ensures posts { (lines : List Line) × PostsAll C.rules (at (C.told client.old) (way (L.told link.old) second.old)) result lines
        (at (C.told client.new) (way (L.told link.new) second.new)) × Prints result lines out.old out.new }
    ensures sound { C.sound (C.told client.new) }
    ensures fixed { C.fixed (C.told client.new) ≡ C.fixed (C.told client.old) }
{
    let mut place = 0;
    'reports: while place < client.reports().len() {
        let posted = post_at(alloc, client, link, second, place, out);
        match posted {
            Posted::NoAnswer => return Next::Part,
            Posted::Memory => return Next::Memory,
            _ => place = place_after(posted, place),
        }
    }
    Next::Item
}

/// Posts the report at this place of those that there are to post.
fn post_at<C: Client, L: Link>(
    alloc: Global,
    client: &mut C,
    link: &mut L,
    second: &mut Option<Text>,
    place: usize,
    out: &mut Bytes,
) -> Posted
    requires sound { C.sound (C.told client.old) }
    requires there { place < length (C.rules.reports (C.told client.old)) }
    ensures posts { (lines : List Line) × PostsAt C.rules place (at (C.told client.old) (way (L.told link.old) second.old)) result lines
        (at (C.told client.new) (way (L.told link.new) second.new)) × Prints (next_posted result) lines out.old out.new }
    ensures sound { C.sound (C.told client.new) }
    ensures fixed { C.fixed (C.told client.new) ≡ C.fixed (C.told client.old) }
{
    let asker = client.asker();
    let before = second.is_some();
    let came = post_report(alloc, link, second, asker, &client.reports()[place]);
    match said(before, second, came, out) {
        Ok(judged) => settled(client.settle_at(alloc, place, &judged)),
        Err(miss) => missed(say_miss(miss, out)),
    }
}

/// What became of a report that was settled so.
fn settled(answer: Result<bool, AllocError>) -> Posted
    ensures { result ≡ settled answer }
{
    match answer {
        Ok(true) => Posted::Gone,
        Ok(false) => Posted::Stays,
        Err(_) => Posted::Memory,
    }
}

/// What became of one of which nothing came, by what comes next then.
fn missed(then: Next) -> Posted
    ensures { result ≡ missed then }
{
    match then {
        Next::Item => Posted::Stays,
        Next::Part => Posted::NoAnswer,
        Next::Memory => Posted::Memory,
    }
}

/// The place of the report behind one of which this became.
fn place_after(posted: Posted, place: usize) -> usize
    requires { place < 2 ^ 64 - 1 }
    ensures { result ≡ place_after posted place }
{
    match posted {
        Posted::Stays => place + 1,
        _ => place,
    }
}
