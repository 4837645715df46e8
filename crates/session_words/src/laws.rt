// What holds of the words of the tables.
ghost use Rattle.rel_grammar.specs.Grammar.{Question};
ghost use Rattle.rel_grammar.specs.Sentences.{question_marks};
ghost use Rattle.rel_grammar.specs.Trees.{question_tree};
ghost use Rattle.session_words.specs.Depths.{AreAsDeep, phrases};

/// Each phrase of the tree of a question stands as deep as its first word among the tokens.
pub fn phrases_stand_as_deep_as_their_words()
    ensures { (q : Question) → AreAsDeep (question_marks q) (phrases 0 (question_tree q)) }
{}
