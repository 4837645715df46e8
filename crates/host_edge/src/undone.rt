use bf_world::Reason;
use edge_faults::Trouble;
use std::alloc::AllocError;
use std::io;

/// Why a command isn't done.
#[derive(Drop)]
pub(crate) enum Undone {
    /// A check of the command refuses it.
    Refused(Reason),
    /// Something else keeps it from being done.
    Trouble(Trouble),
}

impl From<Reason> for Undone {
    fn from(reason: Reason) -> Undone {
        Undone::Refused(reason)
    }
}

impl From<Trouble> for Undone {
    fn from(trouble: Trouble) -> Undone {
        Undone::Trouble(trouble)
    }
}

impl From<AllocError> for Undone {
    fn from(_error: AllocError) -> Undone {
        Undone::Trouble(Trouble::Memory)
    }
}

impl From<io::Error> for Undone {
    fn from(error: io::Error) -> Undone {
        Undone::Trouble(Trouble::from(error))
    }
}
