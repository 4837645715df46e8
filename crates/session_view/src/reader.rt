ghost use Rattle.session_view.specs.OneReading.{session_reading};
ghost use Rattle.session_view.specs.Readings.{SessionReads};

use crate::prepare_session;
use rel_eval::{Question, Refusal};
use rel_session::Reader;
use std::alloc::Global;

/// Texts are read as questions over the tables.
pub struct SessionReader;

impl Reader for SessionReader {
    ghost reads = { SessionReads };

    fn read(alloc: Global, text: &[u8]) -> Result<Question, Refusal> {
        prepare_session(alloc, text)
    }

    ghost one_reading = { session_reading };
}
