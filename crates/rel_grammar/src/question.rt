ghost use Rattle.std.specs.Prelude.{◌≡◌, IfErr, IfOk, MatchResult};
ghost use Rattle.rel_grammar.specs.Grammar.{Question};
ghost use Rattle.rel_grammar.specs.Answers.{Parses, Refuses};
ghost use Rattle.rel_grammar.specs.Sentences.{IsShallow, Sentence, question_marks};
ghost use Rattle.rel_grammar.specs.Shapes.{all_shaped};
ghost use Rattle.rel_grammar.specs.Trees.{question_tree};
ghost use Rattle.rel_grammar.specs.Views.{shown};

use crate::parser::collection;
use crate::peek::place_at;
use crate::{ParseError, Tree};
use rel_lexer::Tokens;
use std::alloc::Global;

/// The tree of a question. Of a token that is wrong and one that is nested too deeply, the one further left is told.
pub fn parse(alloc: Global, tokens: &Tokens) -> Result<Tree, ParseError>
    // The tree is that of a reading of the tokens, none of which stands deeper than 64.
    ensures found { IfOk result (λ tree. Parses (all_shaped tokens.now.list) (shown tree)) }
    // Each such reading is found, unless memory runs out.
    ensures only { (q : Question) → Sentence (all_shaped tokens.now.list) q → IsShallow (question_marks q)
        → MatchResult result (λ tree. shown tree ≡ question_tree q) (λ e. e ≡ ParseError.Memory) }
    // A refusal is at the first token with which the tokens so far begin no sentence, or that is too deep.
    ensures refused { IfErr result (λ e. Refuses tokens.now.end (all_shaped tokens.now.list) e) }
{
    let (tree, left) = collection(alloc, tokens.list.as_slice(), tokens.end, 0)?;
    if left.is_empty() {
        Ok(tree)
    } else {
        Err(ParseError::NoParse(place_at(left, tokens.end)))
    }
}
