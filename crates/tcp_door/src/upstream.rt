use crate::Network;
use crate::limits::ran_out;
use line_forms::read_number;
use std::io::{self, Error, ErrorKind};
use std::net::{SocketAddr, TcpStream, ToSocketAddrs};
use std::time::{Duration, Instant};

/// The last port.
const LAST_PORT: u64 = 65_535;

/// How many seconds all addresses of a name together may take to answer.
const CONNECT_SECONDS: u64 = 3;

/// Connects to an upstream, named as HOST:PORT: to the first of its addresses that answers. The name is looked up each time.
pub(crate) fn connect<N: Network>(network: &N, upstream: &str) -> io::Result<N::Stream> {
    let (host, port) = host_and_port(upstream)?;
    let addresses = (host, port).to_socket_addrs(network)?;
    let begun = Instant::now(network)?;
    let mut last = Error::new(ErrorKind::NotFound, "the name has no address");
    for address in addresses {
        match connect_to(network, &address, begun) {
            Ok(stream) => return Ok(stream),
            Err(error) => last = error,
        }
    }
    Err(last)
}

/// Connects to one address within what is left of the time for all.
fn connect_to<N: Network>(
    network: &N,
    address: &SocketAddr,
    begun: Instant,
) -> io::Result<N::Stream> {
    let left = Duration::from_secs(CONNECT_SECONDS).saturating_sub(begun.elapsed(network)?);
    if left.is_zero() {
        return Err(ran_out());
    }
    TcpStream::connect_timeout(network, address, left)
}

/// The parts of HOST:PORT. An address of IPv6 may stand in brackets.
fn host_and_port(upstream: &str) -> io::Result<(&str, u16)> {
    let malformed = Error::new(ErrorKind::InvalidInput, "the upstream isn't HOST:PORT");
    let Some((host, port)) = upstream.rsplit_once(':') else {
        return Err(malformed);
    };
    match read_number(port.as_bytes(), LAST_PORT) {
        Some(port) if port > 0 && !host.is_empty() => Ok((without_brackets(host), port as u16)),
        _ => Err(malformed),
    }
}

fn without_brackets(host: &str) -> &str {
    match host.strip_prefix('[') {
        Some(rest) => rest.strip_suffix(']').unwrap_or(host),
        None => host,
    }
}
