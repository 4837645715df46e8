// An upstream round of a relay.
ghost use Rattle.std.specs.Prelude.{None};
ghost use Rattle.desk_rounds.specs.Clients.{at};
ghost use Rattle.desk_rounds.specs.RelayRounds.{EndsRelayRound};
ghost use Rattle.desk_rounds.specs.Ways.{way};

use crate::gathering::gather_sites;
use crate::part::Next;
use crate::posting::post_reports;
use desk_base::Bytes;
use desk_http::Link;
use relay_core::Relay;
use std::alloc::{AllocError, Global};

/// One upstream round: the newer sites are gathered, and then the queued reports are posted. Its lines are appended to `out`. The error is
/// want of memory, after which `out` is of no use.
pub fn relay_round<L: Link>(
    alloc: Global,
    relay: &mut Relay,
    link: &mut L,
    out: &mut Bytes,
) -> Result<(), AllocError>
    ensures { EndsRelayRound (at relay.old (way (L.told link.old) None)) out.old result
        (at relay.new (way (L.told link.new) None)) out.new }
{
    let mut second = None;
    match gather_sites(alloc, relay, link, &mut second, out) {
        Next::Memory => return Err(AllocError),
        _ => {}
    }
    match post_reports(alloc, relay, link, &mut second, out) {
        Next::Memory => Err(AllocError),
        _ => Ok(()),
    }
}
