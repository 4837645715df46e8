ghost use Rattle.rel_eval.specs.Answers.{PreparesAs};
ghost use Rattle.rel_eval.specs.Questions.{Reads};
ghost use Rattle.rel_session.specs.Readings.{OneReading, plain_reading};

use rel_eval::{Question, Refusal, prepare};
use std::alloc::Global;

/// How texts are read as questions.
pub trait Reader {
    ghost use Rattle.std.specs.Prelude.{List, ℕ};
    ghost use Rattle.rel_eval.specs.Questions.{Reading};

    /// A text is this.
    ghost reads: { List ℕ → Reading → Type 0 };

    /// The question that a text is, or why it is none.
    fn read(alloc: Global, text: &[u8]) -> Result<Question, Refusal>
        ensures { PreparesAs (reads text.now) result };

    /// A text is one thing.
    ghost one_reading: { OneReading reads };
}

/// Texts are read as questions by themselves.
pub struct PlainReader;

impl Reader for PlainReader {
    ghost reads = { Reads };

    fn read(alloc: Global, text: &[u8]) -> Result<Question, Refusal> {
        prepare(alloc, text)
    }

    ghost one_reading = { plain_reading };
}
