ghost use Rattle.std.specs.Prelude.{◌≡◌, IfOk};

use desk_base::Bytes;
use std::alloc::AllocError;

/// What a giver answers that is asked for the file of a digest.
#[derive(Drop)]
pub enum Given {
    /// Its bytes.
    File(Bytes),
    /// No such file is served.
    NotServed,
    /// It couldn't be asked for, or what came is no answer.
    NotGot,
    /// Want of memory.
    Memory,
}

impl Given {
    /// The same answer once more. The error is want of memory.
    pub fn copy(&self) -> Result<Given, AllocError>
        ensures { IfOk result (λ given. given ≡ self.now) }
    {
        Ok(match self {
            Given::File(bytes) => Given::File(bytes.copy()?),
            Given::NotServed => Given::NotServed,
            Given::NotGot => Given::NotGot,
            Given::Memory => Given::Memory,
        })
    }
}

/// A file that was asked for, by its SHA-256, and what came.
#[derive(Drop)]
pub struct FileAsked {
    pub digest: [u8; 32],
    pub answer: Given,
}

impl FileAsked {
    /// The same file and what came, once more. The error is want of memory.
    pub fn copy(&self) -> Result<FileAsked, AllocError>
        ensures { IfOk result (λ asked. asked ≡ self.now) }
    {
        Ok(FileAsked {
            digest: self.digest,
            answer: self.answer.copy()?,
        })
    }
}

/// What gives files, and tells which it was asked for.
pub trait Giver {
    ghost use Rattle.std.specs.Prelude.{◌≡◌, ℕ, List};
    ghost use Rattle.turn_lines.specs.declared.giver.Given.{Given};
    ghost use Rattle.turn_lines.specs.Givers.{GiverView, GivesFile};

    /// What it tells of where its files come from.
    ghost Source: { Type 0 };

    /// What it tells of itself.
    ghost told: { Self → GiverView Source };

    /// How files come from there.
    ghost gives: { Source → List ℕ → Given → Source → Type 0 };

    /// The references that it holds.
    ghost holds: { Self → List ℕ };

    /// Asks for the file of a digest, its SHA-256.
    fn give(&mut self, digest: &[u8; 32]) -> Given
        ensures gives { GivesFile gives digest.now (told self.old) result (told self.new) }
        ensures holds { holds self.new ≡ holds self.old };
}
