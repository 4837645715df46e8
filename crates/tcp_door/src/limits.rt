use std::io::{self, Error, ErrorKind};
use std::time::Duration;

/// How long a peer is still waited for: for the next byte, and in all. Only time that is spent in waiting counts.
#[derive(Clone, Copy)]
pub(crate) struct Limits {
    each: Duration,
    each_left: Duration,
    left: Duration,
}

impl Limits {
    /// So many seconds for each byte, and so many in all.
    pub(crate) fn new(each: u64, all: u64) -> Limits {
        let each = Duration::from_secs(each);
        Limits {
            each,
            each_left: each,
            left: Duration::from_secs(all),
        }
    }

    /// The most that the next call may wait. The error says that a limit has run out.
    pub(crate) fn least(&self) -> io::Result<Duration> {
        let least = self.each_left.min(self.left);
        if least.is_zero() {
            return Err(ran_out());
        }
        Ok(least)
    }

    /// So much time was spent in waiting.
    pub(crate) fn spend(&mut self, spent: Duration) {
        self.each_left = self.each_left.saturating_sub(spent);
        self.left = self.left.saturating_sub(spent);
    }

    /// A byte has come or gone, so the time for the next one begins.
    pub(crate) fn renew(&mut self) {
        self.each_left = self.each;
    }
}

/// The peer let too much time pass.
pub(crate) fn ran_out() -> Error {
    Error::new(ErrorKind::TimedOut, "the peer was waited for too long")
}

/// Whether a call is to be made again: it was interrupted, or its own limit ran out, which what is left decides about.
pub(crate) fn is_made_again(error: &Error) -> bool {
    matches!(error.kind(), ErrorKind::Interrupted | ErrorKind::WouldBlock)
}
