ghost use Rattle.std.specs.Prelude.{◌≡◌, None};

use desk_base::{Put, Sink};
use edge_faults::Faults;
use std::io::{Eprint, Write};

/// A writer of std as a sink.
#[derive(Drop)]
pub struct FileSink<W: Write, E: Eprint> {
    inner: W,
    faults: Faults<E>,
}

impl<W: Write, E: Eprint> FileSink<W, E> {
    /// A sink into the writer, without faults so far. Its faults are told to `errors`.
    pub fn new(inner: W, errors: E) -> FileSink<W, E>
        ensures { result.faults ≡ 0 }
    {
        FileSink {
            inner,
            faults: Faults::none("sink", errors),
        }
    }
}

impl<W: Write, E: Eprint> Sink for FileSink<W, E> {
    ghost told = { λ s. record { held = None; faults = s.faults } };

    fn write(&mut self, piece: &[u8]) -> Put {
        match self.inner.write_all(piece) {
            Ok(()) => Put::Done,
            Err(error) => {
                self.faults.add("write", "bytes", error);
                Put::Failed
            }
        }
    }
}
