ghost use Rattle.std.specs.Prelude.{◌≡◌, IfOk};

use crate::Cause;
use std::alloc::AllocError;

/// How an advance of a script ends. Lines are numbered from 1.
#[derive(Drop)]
pub enum Ran {
    /// The program that the line waits for runs, or the test of its `pause while` is true.
    Held(u32),
    /// The line wants the file of this SHA-256.
    Wants(u32, [u8; 32]),
    /// All lines are done. It is answered again from then on.
    Done,
    /// The line failed. It is answered again from then on.
    Failed(u32, Cause),
    /// Memory ran out. The script stands before the line that it couldn't finish, and no command of that line was done.
    Memory,
}

impl Ran {
    /// The same answer once more. The error is want of memory.
    pub fn copy(&self) -> Result<Ran, AllocError>
        ensures { IfOk result (λ ran. ran ≡ self.now) }
    {
        Ok(match self {
            Ran::Held(line) => Ran::Held(*line),
            Ran::Wants(line, digest) => Ran::Wants(*line, *digest),
            Ran::Done => Ran::Done,
            Ran::Failed(line, cause) => Ran::Failed(*line, cause.copy()?),
            Ran::Memory => Ran::Memory,
        })
    }
}
