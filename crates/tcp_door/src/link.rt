ghost use Rattle.std.specs.Prelude.{◌≡◌, None, IfOk};

use crate::Network;
use crate::limits::Limits;
use crate::reply::read_reply;
use crate::silent::SilentUpstreams;
use crate::upstream::connect;
use crate::writing::write_all;
use desk_base::Bytes;
use desk_door::{Exchanged, Link};
use edge_faults::{Faults, Trouble};
use rel_lexer::Text;
use std::alloc::{AllocError, Global};
use std::io::{Error, ErrorKind};
use std::thread;
use std::time::{Duration, Instant};

/// How many seconds an upstream has for its next byte, or for taking one.
const EACH_SECONDS: u64 = 60;

/// How many seconds an exchange may take.
const ALL_SECONDS: u64 = 120;

/// A link that makes a connection for each exchange.
#[derive(Drop)]
pub struct TcpLink<N: Network> {
    alloc: Global,
    network: N,
    upstream: Option<Text>,
    silent: SilentUpstreams,
    every: Option<u64>,
    faults: Faults<N>,
}

impl<N: Network> TcpLink<N> {
    /// A link to no upstream yet, which pauses so many seconds; where that isn't given, no exchange succeeds. The error is want of memory.
    pub fn new(alloc: Global, network: N, every: Option<u64>) -> Result<TcpLink<N>, AllocError>
        ensures faults { IfOk result (λ link. link.faults ≡ 0) }
        ensures upstream { IfOk result (λ link. link.upstream ≡ None) }
    {
        let errors = network.clone()?;
        Ok(TcpLink {
            alloc,
            network,
            upstream: None,
            silent: SilentUpstreams::none(alloc),
            every,
            faults: Faults::none("link", errors),
        })
    }

    /// Asks the upstream that is open.
    fn ask(&mut self, request: &[u8]) -> Result<Bytes, Trouble>
        ensures faults { self.new.faults ≡ self.old.faults }
        ensures upstream { self.new.upstream ≡ self.old.upstream }
    {
        if self.every.is_none() {
            return Err(fault("DESK_EVERY is no number from 0 to 86400"));
        }
        let Some(upstream) = &self.upstream else {
            return Err(fault("no upstream was named"));
        };
        if self.silent.is_silent(&self.network, upstream.as_str()) {
            return Err(fault("the upstream didn't answer in the last 30 seconds"));
        }
        let begun = Instant::now(&self.network)?;
        let mut stream = match connect(&self.network, upstream.as_str()) {
            Ok(stream) => stream,
            Err(error) => {
                if error.kind() == ErrorKind::TimedOut {
                    let _ = self.silent.add(&self.network, upstream);
                }
                return Err(Trouble::from(error));
            }
        };
        let mut limits = Limits::new(EACH_SECONDS, ALL_SECONDS);
        limits.spend(begun.elapsed(&self.network)?);
        write_all(&self.network, &mut stream, request, &mut limits)?;
        read_reply(self.alloc, &self.network, &mut stream, &mut limits)
    }
}

impl<N: Network> Link for TcpLink<N> {
    ghost told = { λ l. record { upstream = l.upstream; asked = None; replies = None; faults = l.faults } };

    fn open(&mut self, upstream: &Text) -> Result<(), AllocError> {
        self.upstream = Some(upstream.copy()?);
        Ok(())
    }

    fn exchange(&mut self, request: &[u8]) -> Exchanged {
        match self.ask(request) {
            Ok(reply) => Exchanged::Reply(reply),
            Err(Trouble::Memory) => Exchanged::Memory,
            Err(Trouble::System(error)) => {
                self.faults.add("exchange", name_of(&self.upstream), error);
                Exchanged::Failed
            }
        }
    }

    fn pause(&mut self) {
        if let Some(seconds) = self.every {
            thread::sleep(&self.network, Duration::from_secs(seconds));
        }
    }
}

fn fault(words: &str) -> Trouble {
    Trouble::System(Error::new(ErrorKind::InvalidInput, words))
}

/// The name of an upstream, for what is told of it.
fn name_of(upstream: &Option<Text>) -> &str {
    match upstream {
        Some(upstream) => upstream.as_str(),
        None => "request",
    }
}
