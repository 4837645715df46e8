ghost use Rattle.agent_text.specs.Histories.{shown_history};
ghost use Rattle.agent_text.specs.KeptTexts.{Joins, KeepsText};

use crate::history::History;
use crate::made::Made;
use crate::size::history_size;
use std::alloc::AllocError;

/// Histories, each of which keeps the bytes of its own lines, if any, and the lines of the first of them.
#[derive(Clone, Copy)]
pub(crate) struct KeptHistories<'a> {
    pub list: &'a [History],
    pub made: &'a Made,
}

/// Adds the bytes that a history keeps to those of the histories before it, if these are there and it isn't pending. It stands at this
/// place.
pub(crate) fn join(history: &History, place: usize, made: &mut Made) -> Result<(), AllocError>
    requires { KeepsText history.now }
    ensures { Joins place (shown_history history.now) made.old made.new }
{
    if history.pending || made.count() != place {
        return Ok(());
    }
    match (&history.text, history_size(history)) {
        (Some(text), Some(size)) => made.add(text.as_slice(), size),
        _ => Ok(()),
    }
}
