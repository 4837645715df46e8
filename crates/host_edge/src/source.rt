ghost use Rattle.std.specs.Prelude.{◌≡◌, None};

use desk_base::{Got, Source};
use edge_faults::Faults;
use std::io::{Eprint, Read};

/// A reader of std as a source.
#[derive(Drop)]
pub struct FileSource<R: Read, E: Eprint> {
    inner: R,
    faults: Faults<E>,
}

impl<R: Read, E: Eprint> FileSource<R, E> {
    /// A source of the reader's bytes, without faults so far. Its faults are told to `errors`.
    pub fn new(inner: R, errors: E) -> FileSource<R, E>
        ensures { result.faults ≡ 0 }
    {
        FileSource {
            inner,
            faults: Faults::none("source", errors),
        }
    }
}

impl<R: Read, E: Eprint> Source for FileSource<R, E> {
    ghost told = { λ s. record { left = None; reads = None; faults = s.faults } };

    fn read(&mut self, room: &mut [u8]) -> Got {
        match self.inner.read(room) {
            Ok(0) => Got::End,
            Ok(count) => Got::Some(count),
            Err(error) => {
                self.faults.add("read", "bytes", error);
                Got::Failed
            }
        }
    }
}
