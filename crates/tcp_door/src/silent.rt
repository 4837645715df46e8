use rel_lexer::Text;
use std::alloc::{AllocError, Global};
use std::time::{Clock, Duration, Instant};

/// How many seconds an upstream isn't tried after it let the time to connect run out.
const SILENT_SECONDS: u64 = 30;

/// An upstream that didn't answer, and when that was found out.
#[derive(Drop)]
struct Silent {
    upstream: Text,
    since: Instant,
}

/// The upstreams that didn't answer lately.
#[derive(Drop)]
pub(crate) struct SilentUpstreams {
    all: Vec<Silent>,
}

impl SilentUpstreams {
    pub(crate) fn none(alloc: Global) -> SilentUpstreams {
        SilentUpstreams {
            all: Vec::new(alloc),
        }
    }

    /// Whether an upstream isn't to be tried yet.
    pub(crate) fn is_silent<C: Clock>(&self, clock: &C, upstream: &str) -> bool {
        for silent in &self.all {
            if silent.upstream.as_str() == upstream {
                return is_lately(clock, silent.since);
            }
        }
        false
    }

    /// An upstream didn't answer just now. At an error it isn't kept, so that it will be tried again.
    pub(crate) fn add<C: Clock>(&mut self, clock: &C, upstream: &Text) -> Result<(), AllocError> {
        let Ok(since) = Instant::now(clock) else {
            return Ok(());
        };
        for silent in &mut self.all {
            if silent.upstream.as_str() == upstream.as_str() {
                silent.since = since;
                return Ok(());
            }
        }
        let upstream = upstream.copy()?;
        self.all.push(Silent { upstream, since })?;
        Ok(())
    }
}

fn is_lately<C: Clock>(clock: &C, since: Instant) -> bool {
    match since.elapsed(clock) {
        Ok(elapsed) => elapsed < Duration::from_secs(SILENT_SECONDS),
        Err(_) => false,
    }
}
