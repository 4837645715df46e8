use crate::Network;
use crate::limits::Limits;
use crate::reading::{ROOM, read};
use desk_base::Bytes;
use edge_faults::Trouble;
use std::alloc::Global;
use std::io::{Error, ErrorKind};

/// The most bytes of a reply: a head of 16,384 and a body of 4,194,304.
const LONGEST_REPLY: usize = 4_210_688;

/// All bytes of a peer until it closes.
pub(crate) fn read_reply<N: Network>(
    alloc: Global,
    network: &N,
    stream: &mut N::Stream,
    limits: &mut Limits,
) -> Result<Bytes, Trouble> {
    let mut reply = Bytes::new(alloc);
    let mut room = [0u8; ROOM];
    for _ in 0..u64::MAX {
        let count = read(network, stream, &mut room, limits)?;
        if count == 0 {
            return Ok(reply);
        }
        if count > LONGEST_REPLY.saturating_sub(reply.as_slice().len()) {
            return Err(too_long());
        }
        reply.extend(&room[..count])?;
    }
    Err(too_long())
}

fn too_long() -> Trouble {
    let words = "the reply has more than 4,210,688 bytes";
    Trouble::System(Error::new(ErrorKind::FileTooLarge, words))
}
