ghost use Rattle.std.specs.Prelude.{◌≡◌, IfOk, OnErr};
ghost use Rattle.script_run.specs.Causes.{cause_number, HasTexts};

use bf_machine::Reason;
use rel_eval::RelKind;
use rel_lexer::{Place, Text};
use std::alloc::AllocError;

/// Why an attempt failed at a line.
#[derive(Drop)]
pub enum Cause {
    /// An expression or a test is refused or ends in this error, at this place in the text between its braces.
    Relevance(RelKind, Place),
    /// The test of a `continue if` is false.
    NotContinued,
    /// The machine refused the command.
    Refused(Reason),
    /// A look, a command or a poll failed.
    MachineFault,
    /// The parameter was set before.
    ParameterTwice,
    /// A file has another size than its line states, in bytes.
    WrongSize { stated: u64, found: u64 },
    /// A file has another SHA-1 or SHA-256 than its line states, in hexadecimal digits in lower case.
    WrongDigest { stated: Text, found: Text },
    /// No file of this SHA-256 is served.
    NotServed([u8; 32]),
    /// The date of a setting is no time.
    BadDate,
    /// The script is done, and what it was to bring about is not so.
    NotMet,
}

impl Cause {
    /// The number by which reports name it, from 40 to 49.
    pub fn number(&self) -> u8
        ensures { result ≡ cause_number self.now }
    {
        match self {
            Cause::Relevance(_, _) => 40,
            Cause::NotContinued => 41,
            Cause::Refused(_) => 42,
            Cause::MachineFault => 43,
            Cause::ParameterTwice => 44,
            Cause::WrongSize { .. } => 45,
            Cause::WrongDigest { .. } => 46,
            Cause::NotServed(_) => 47,
            Cause::BadDate => 48,
            Cause::NotMet => 49,
        }
    }

    /// The same cause once more. The error is want of memory, which only digests take.
    pub fn copy(&self) -> Result<Cause, AllocError>
        ensures same { IfOk result (λ cause. cause ≡ self.now) }
        ensures texts { OnErr result (HasTexts self.now) }
    {
        Ok(match self {
            Cause::Relevance(kind, place) => Cause::Relevance(*kind, *place),
            Cause::NotContinued => Cause::NotContinued,
            Cause::Refused(reason) => Cause::Refused(*reason),
            Cause::MachineFault => Cause::MachineFault,
            Cause::ParameterTwice => Cause::ParameterTwice,
            Cause::WrongSize { stated, found } => Cause::WrongSize {
                stated: *stated,
                found: *found,
            },
            Cause::WrongDigest { stated, found } => Cause::WrongDigest {
                stated: stated.copy()?,
                found: found.copy()?,
            },
            Cause::NotServed(digest) => Cause::NotServed(*digest),
            Cause::BadDate => Cause::BadDate,
            Cause::NotMet => Cause::NotMet,
        })
    }
}
