ghost use Rattle.std.specs.Prelude.{◌≤◌, length, IfOk};

use crate::Network;
use crate::limits::{Limits, is_made_again, ran_out};
use std::io::{self, Read};
use std::net::OpenStream;
use std::time::Instant;

/// How many bytes are read at a time.
pub(crate) const ROOM: usize = 16_384;

/// Takes the next bytes of a peer into the front of the room, and waits for them within the limits. None are left where it took none.
pub(crate) fn read<N: Network>(
    network: &N,
    stream: &mut N::Stream,
    room: &mut [u8],
    limits: &mut Limits,
) -> io::Result<usize>
    ensures { IfOk result (λ count. count ≤ length room.new) }
{
    limits.renew();
    for _ in 0..u64::MAX {
        match read_once(network, stream, room, limits) {
            Err(error) if is_made_again(&error) => {}
            ended => return ended,
        }
    }
    Err(ran_out())
}

/// One call of the system, which waits at most what is left.
fn read_once<N: Network>(
    network: &N,
    stream: &mut N::Stream,
    room: &mut [u8],
    limits: &mut Limits,
) -> io::Result<usize>
    ensures { IfOk result (λ count. count ≤ length room.new) }
{
    stream.set_read_timeout(Some(limits.least()?))?;
    let begun = Instant::now(network)?;
    let got = stream.read(room);
    limits.spend(begun.elapsed(network)?);
    got
}
