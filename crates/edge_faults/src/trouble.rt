use std::alloc::AllocError;
use std::io::{Error, ErrorKind};

/// Why a call of a device gives up.
#[derive(Drop)]
pub enum Trouble {
    /// Memory ran out.
    Memory,
    /// The system refused something, or gave what can't be an answer.
    System(Error),
}

impl From<AllocError> for Trouble {
    fn from(_error: AllocError) -> Trouble {
        Trouble::Memory
    }
}

impl From<Error> for Trouble {
    fn from(error: Error) -> Trouble {
        if error.kind() == ErrorKind::OutOfMemory {
            Trouble::Memory
        } else {
            Trouble::System(error)
        }
    }
}
