ghost use Rattle.std.specs.Prelude.{◌≡◌, ◌≤◌, length, None, IfOk};

use crate::Network;
use crate::limits::{Limits, ran_out};
use crate::reading::{ROOM, read};
use crate::writing::write_all;
use desk_base::Put;
use desk_door::{Door, DoorGot};
use edge_faults::Faults;
use std::alloc::AllocError;
use std::io::{self, Error, ErrorKind};
use std::net::{Ipv4Addr, OpenListener, OpenStream, Shutdown, TcpListener};
use std::time::Duration;

/// How many seconds a peer has for its next byte, or for taking one.
const EACH_SECONDS: u64 = 10;

/// How many seconds a peer is waited for in one conversation.
const ALL_SECONDS: u64 = 30;

/// How many seconds a peer is heard whose request wasn't read to its end, so that it gets to read its refusal.
const DRAIN_SECONDS: u64 = 2;

/// How many bytes of it are dropped.
const MOST_DRAINED: usize = 8_388_608;

/// The conversation with one peer.
#[derive(Drop)]
struct Talk<S: Drop> {
    stream: S,
    limits: Limits,
}

/// A door that listens on a port of this machine.
#[derive(Drop)]
pub struct TcpDoor<N: Network> {
    network: N,
    address: Option<Ipv4Addr>,
    listener: Option<N::Listener>,
    talk: Option<Talk<N::Stream>>,
    faults: Faults<N>,
}

impl<N: Network> TcpDoor<N> {
    /// A door that isn't open, at this address; where there is none, no opening succeeds. The error is want of memory.
    pub fn new(network: N, address: Option<Ipv4Addr>) -> Result<TcpDoor<N>, AllocError>
        ensures { IfOk result (λ door. door.faults ≡ 0) }
    {
        let errors = network.clone()?;
        Ok(TcpDoor {
            network,
            address,
            listener: None,
            talk: None,
            faults: Faults::none("door", errors),
        })
    }

    fn listen(&self, port: u16) -> io::Result<N::Listener> {
        match self.address {
            Some(address) => TcpListener::bind(&self.network, (address, port)),
            None => {
                let words = "DESK_LISTEN is no IPv4 address";
                Err(Error::new(ErrorKind::InvalidInput, words))
            }
        }
    }

    /// Takes the next peer whose connection stands.
    fn accept(&self) -> io::Result<Talk<N::Stream>> {
        let Some(listener) = &self.listener else {
            return Err(Error::new(ErrorKind::NotConnected, "the door isn't open"));
        };
        for _ in 0..u64::MAX {
            match listener.accept() {
                Ok((stream, _)) => {
                    if has_limits(&stream) {
                        let limits = Limits::new(EACH_SECONDS, ALL_SECONDS);
                        return Ok(Talk { stream, limits });
                    }
                }
                Err(error) if is_gone(&error) => {}
                Err(error) => return Err(error),
            }
        }
        Err(ran_out())
    }

    fn take(&mut self, room: &mut [u8]) -> io::Result<usize>
        ensures count { IfOk result (λ count. count ≤ length room.new) }
        ensures faults { self.new.faults ≡ self.old.faults }
    {
        match &mut self.talk {
            Some(talk) => read(&self.network, &mut talk.stream, room, &mut talk.limits),
            None => Err(no_conversation()),
        }
    }

    fn hand(&mut self, piece: &[u8]) -> io::Result<()>
        ensures { self.new.faults ≡ self.old.faults }
    {
        match &mut self.talk {
            Some(talk) => write_all(&self.network, &mut talk.stream, piece, &mut talk.limits),
            None => Err(no_conversation()),
        }
    }
}

impl<N: Network> Door for TcpDoor<N> {
    ghost told = { λ d. record { ports = None; coming = None; left = None; written = None; ended = None; faults = d.faults } };

    fn open(&mut self, port: u16) -> Put {
        match self.listen(port) {
            Ok(listener) => {
                self.listener = Some(listener);
                Put::Done
            }
            Err(error) => {
                self.faults.add("open", port, error);
                Put::Failed
            }
        }
    }

    fn next(&mut self) -> Put {
        self.talk = None;
        match self.accept() {
            Ok(talk) => {
                self.talk = Some(talk);
                Put::Done
            }
            Err(error) => {
                self.faults.add("next", "conversation", error);
                Put::Failed
            }
        }
    }

    fn read(&mut self, room: &mut [u8]) -> DoorGot {
        match self.take(room) {
            Ok(0) => DoorGot::End,
            Ok(count) => DoorGot::Some(count),
            Err(error) => {
                self.faults.add("read", "conversation", error);
                DoorGot::Failed
            }
        }
    }

    fn write(&mut self, piece: &[u8]) -> Put {
        match self.hand(piece) {
            Ok(()) => Put::Done,
            Err(error) => {
                self.faults.add("write", "conversation", error);
                Put::Failed
            }
        }
    }

    fn close(&mut self, whole: bool) {
        if let Some(talk) = &mut self.talk {
            let _ = talk.stream.shutdown(Shutdown::Write);
            if !whole {
                drain(&self.network, &mut talk.stream);
            }
        }
        self.talk = None;
    }
}

/// Whether a peer's connection takes limits. One that is gone may not.
fn has_limits<S: OpenStream>(stream: &S) -> bool {
    let each = Some(Duration::from_secs(EACH_SECONDS));
    stream.set_read_timeout(each).is_ok() && stream.set_write_timeout(each).is_ok()
}

/// Whether taking the next peer failed by that peer alone, so that another one may be taken.
fn is_gone(error: &Error) -> bool {
    matches!(
        error.kind(),
        ErrorKind::Interrupted | ErrorKind::ConnectionAborted | ErrorKind::ConnectionReset
    )
}

fn no_conversation() -> Error {
    Error::new(ErrorKind::NotConnected, "no conversation has begun")
}

/// Reads what a peer still says, and drops it: a connection that is closed with bytes unread is reset, and the peer may lose what was
/// written before.
fn drain<N: Network>(network: &N, stream: &mut N::Stream) {
    let mut limits = Limits::new(DRAIN_SECONDS, DRAIN_SECONDS);
    let mut room = [0u8; ROOM];
    let mut left = MOST_DRAINED;
    for _ in 0..MOST_DRAINED {
        let most = left.min(ROOM);
        match read(network, stream, &mut room[..most], &mut limits) {
            Ok(count) if count > 0 => left = left.saturating_sub(count),
            _ => return,
        }
    }
}
