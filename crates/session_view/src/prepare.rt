ghost use Rattle.rel_eval.specs.Answers.{PreparesAs};
ghost use Rattle.session_view.specs.Readings.{SessionReads};

use rel_eval::{Question, Refusal, RelKind, prepare_tree};
use rel_grammar::parse;
use rel_lexer::tokens;
use session_words::{replaced, too_deep};
use std::alloc::Global;

/// Prepares a question over the tables from its text. A text that the lexer or the parser refuses is refused so; one in which a word of
/// the tables that gets a folder stands at the greatest depth is too deep at the first such phrase; and one that isn't well typed, with
/// the words of the tables replaced, is refused with the first fault in the order of checking.
pub fn prepare_session(alloc: Global, text: &[u8]) -> Result<Question, Refusal>
    ensures { PreparesAs (SessionReads text.now) result }
{
    let tokens = tokens(alloc, text)?;
    let tree = parse(alloc, &tokens)?;
    if let Some(place) = too_deep(&tree) {
        return Err(Refusal::At(RelKind::TooDeep, place));
    }
    let replaced = replaced(alloc, &tree)?;
    prepare_tree(alloc, &replaced)
}
