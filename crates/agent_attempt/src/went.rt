ghost use Rattle.std.specs.Prelude.{◌≡◌, IfOk};

use act_rules::Note;
use script_run::Cause;
use std::alloc::AllocError;

/// Where and why an attempt failed.
#[derive(Drop)]
pub struct Fail {
    /// The position of the component, from 1, or 0 for a fixlet by itself.
    pub component: u32,
    /// The line of its script, from 1, or 0 where its relevance or its success couldn't be judged, or its success rule isn't met.
    pub line: u32,
    pub cause: Cause,
}

impl Fail {
    /// The same once more. The error is want of memory.
    pub fn copy(&self) -> Result<Fail, AllocError>
        ensures { IfOk result (λ fail. fail ≡ self.now) }
    {
        Ok(Fail {
            component: self.component,
            line: self.line,
            cause: self.cause.copy()?,
        })
    }
}

/// What failed once more, if anything did. The error is want of memory.
pub fn copy_fail(fail: &Option<Fail>) -> Result<Option<Fail>, AllocError>
    ensures { IfOk result (λ copy. copy ≡ fail.now) }
{
    match fail {
        Some(fail) => Ok(Some(fail.copy()?)),
        None => Ok(None),
    }
}

/// What an attempt comes to that goes on.
#[derive(Drop)]
pub enum Went {
    /// The line waits for a program, or for a test.
    Held { component: u32, line: u32 },
    /// The file of this SHA-256 is wanted.
    Wants { digest: [u8; 32] },
    /// The attempt has ended, with what failed first, if anything failed, and the note of its row.
    Ended { fail: Option<Fail>, note: Note },
    /// Want of memory. The attempt stands before the line or the judgement that it couldn't finish.
    Memory,
}

impl Went {
    /// The same answer once more. The error is want of memory.
    pub fn copy(&self) -> Result<Went, AllocError>
        ensures { IfOk result (λ went. went ≡ self.now) }
    {
        Ok(match self {
            Went::Held { component, line } => Went::Held {
                component: *component,
                line: *line,
            },
            Went::Wants { digest } => Went::Wants { digest: *digest },
            Went::Ended { fail, note } => Went::Ended {
                fail: copy_fail(fail)?,
                note: *note,
            },
            Went::Memory => Went::Memory,
        })
    }
}
