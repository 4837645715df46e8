ghost use Rattle.std.specs.Prelude.{◌≤◌, length, IfOk};

use crate::Network;
use crate::limits::{Limits, is_made_again, ran_out};
use std::io::{self, Error, ErrorKind, Write};
use std::net::OpenStream;
use std::time::Instant;

/// Hands a peer all bytes of a piece, and waits for it within the limits.
pub(crate) fn write_all<N: Network>(
    network: &N,
    stream: &mut N::Stream,
    piece: &[u8],
    limits: &mut Limits,
) -> io::Result<()> {
    let mut left = piece;
    limits.renew();
    for _ in 0..u64::MAX {
        if left.is_empty() {
            return Ok(());
        }
        match write_once(network, stream, left, limits) {
            Ok(0) => return Err(Error::from(ErrorKind::WriteZero)),
            Ok(count) => {
                left = &left[count..];
                limits.renew();
            }
            Err(error) if is_made_again(&error) => {}
            Err(error) => return Err(error),
        }
    }
    Err(ran_out())
}

/// One call of the system, which waits at most what is left.
fn write_once<N: Network>(
    network: &N,
    stream: &mut N::Stream,
    piece: &[u8],
    limits: &mut Limits,
) -> io::Result<usize>
    ensures { IfOk result (λ count. count ≤ length piece.now) }
{
    stream.set_write_timeout(Some(limits.least()?))?;
    let begun = Instant::now(network)?;
    let put = stream.write(piece);
    limits.spend(begun.elapsed(network)?);
    put
}
