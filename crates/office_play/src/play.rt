// The play of an office from its first word to its end.
ghost use Rattle.std.specs.Prelude.{◌≡◌, List, IsErrOf, OnErr, OnOk};
ghost use Rattle.desk_base.specs.Counts.{CountsFaults};
ghost use Rattle.line_forms.specs.Readers.{EachCan};
ghost use Rattle.server_text.specs.Entries.{Entry};
ghost use Rattle.office_text.specs.Orders.{CanFollow, IsOrder};
ghost use Rattle.office_rules.specs.Endings.{ending_text};
ghost use Rattle.office_play.specs.Kept.{AreRowsOf, HasAccepted, empty_kept, office_of};
ghost use Rattle.office_play.specs.Links.{AddsNames, IsGoodOffice, KnowsNames, added_computers, added_relays};
ghost use Rattle.office_play.specs.Plays.{WritesOr, WritesOrder, WritesPlay, end_of};
ghost use Rattle.office_play.specs.States.{kept_of};

use crate::office::Office;
use desk_base::{Bytes, Put, Sink};
use office_text::{Order, Orders};
use std::alloc::{AllocError, Global};

/// How a play ended.
#[derive(Clone, Copy)]
pub enum PlayEnd {
    /// All of it was written.
    Done,
    /// A write failed, of what was printed of a word or of the end.
    Failed,
    /// Memory ran out in a word or at the end, of which nothing was written then.
    Memory,
}

impl From<AllocError> for PlayEnd {
    ghost use Rattle.office_play.specs.declared.play.PlayEnd.TheVariants.{Memory};

    ghost from_gives = { λ _ e. e ≡ Memory };

    fn from(_: AllocError) -> PlayEnd {
        PlayEnd::Memory
    }
}

/// Plays orders, each of which can follow those before it, over a server, relays and computers in memory. What is printed of a word is
/// written when it was played.
pub fn play_office<W: Sink>(alloc: Global, orders: Orders, sink: &mut W) -> PlayEnd
    requires { EachCan CanFollow orders }
    ensures writes { WritesPlay orders result (W.told sink.old).held (W.told sink.new).held }
    ensures counts { CountsFaults (result ≡ PlayEnd.Failed) (W.told sink.old).faults (W.told sink.new).faults }
{
    let mut office = Office::new(alloc);
    play_in(alloc, &mut office, orders, sink)
}

/// Plays orders in an office before its first word, and then the end; answers how that ended.
fn play_in<W: Sink>(alloc: Global, office: &mut Office, orders: Orders, sink: &mut W) -> PlayEnd
    requires orders { EachCan CanFollow orders }
    requires office { kept_of office.old ≡ empty_kept }
    ensures writes { WritesPlay orders result (W.told sink.old).held (W.told sink.new).held }
    ensures counts { CountsFaults (result ≡ PlayEnd.Failed) (W.told sink.old).faults (W.told sink.new).faults }
{
    match play_all(alloc, office, orders, sink) {
        Ok(()) => PlayEnd::Done,
        Err(end) => end,
    }
}

/// Plays orders one after another in an office before its first word, and then the end. The error says how the play ended before its end.
fn play_all<W: Sink>(
    alloc: Global,
    office: &mut Office,
    orders: Orders,
    sink: &mut W,
) -> Result<(), PlayEnd>
    requires orders { EachCan CanFollow orders }
    requires office { kept_of office.old ≡ empty_kept }
    ensures writes { WritesPlay orders (end_of result) (W.told sink.old).held (W.told sink.new).held }
    ensures counts { CountsFaults (IsErrOf result PlayEnd.Failed) (W.told sink.old).faults (W.told sink.new).faults }
    ensures never { ¬ IsErrOf result PlayEnd.Done }
{
    for order in orders.into_vec() {
        play_order(alloc, office, order, sink)?;
    }
    play_end(alloc, office, sink)
}

/// Plays an order, and writes what is printed of it.
fn play_order<W: Sink>(
    alloc: Global,
    office: &mut Office,
    order: Order,
    sink: &mut W,
) -> Result<(), PlayEnd>
    requires good { IsGoodOffice (kept_of office.old) }
    requires accepted { HasAccepted (kept_of office.old).rows }
    requires order { IsOrder order }
    requires names { KnowsNames (kept_of office.old) order }
    ensures plays { (accepted : List Entry) → AreRowsOf accepted (kept_of office.old).rows
        → WritesOrder order accepted (kept_of office.old) (W.told sink.old).held result (kept_of office.new) (W.told sink.new).held }
    ensures names { OnOk result (AddsNames (added_relays order) (added_computers order) (kept_of office.old) (kept_of office.new)) }
    ensures counts { CountsFaults (IsErrOf result PlayEnd.Failed) (W.told sink.old).faults (W.told sink.new).faults }
    ensures never { ¬ IsErrOf result PlayEnd.Done }
{
    let mut out = Bytes::new(alloc);
    office.obey(order, &mut out)?;
    written(&out, sink)
}

/// Writes what is printed at the end.
fn play_end<W: Sink>(alloc: Global, office: &mut Office, sink: &mut W) -> Result<(), PlayEnd>
    ensures writes { (accepted : List Entry) → AreRowsOf accepted (kept_of office.old).rows
        → WritesOr (ending_text (office_of accepted (kept_of office.old))) (W.told sink.old).held result (W.told sink.new).held }
    ensures counts { CountsFaults (IsErrOf result PlayEnd.Failed) (W.told sink.old).faults (W.told sink.new).faults }
    ensures never { ¬ IsErrOf result PlayEnd.Done }
{
    let mut out = Bytes::new(alloc);
    office.say_end(&mut out)?;
    written(&out, sink)
}

/// Writes a piece whole.
fn written<W: Sink>(piece: &Bytes, sink: &mut W) -> Result<(), PlayEnd>
    ensures writes { WritesOr piece.now (W.told sink.old).held result (W.told sink.new).held }
    ensures counts { CountsFaults (IsErrOf result PlayEnd.Failed) (W.told sink.old).faults (W.told sink.new).faults }
    ensures only { OnErr result (IsErrOf result PlayEnd.Failed) }
{
    match sink.write(piece.as_slice()) {
        Put::Done => Ok(()),
        Put::Failed => Err(PlayEnd::Failed),
    }
}
