ghost use Rattle.std.specs.Prelude.{◌≡◌, ◌≢◌, Err, Result};
ghost use Rattle.rel_lexer.specs.declared.token_list.Tokens.{Tokens};
ghost use Rattle.rel_lexer.specs.declared.error.LexError.{LexError};
ghost use Rattle.rel_lexer.specs.declared.error.LexError.TheVariants.{Memory};
ghost use Rattle.rel_lexer.specs.Tokens.{Lexed};

/// A text has one list of tokens, or one refusal, beside want of memory.
pub fn lexed_in_one_way(text: &[u8])
    ensures { (a b : Result Tokens LexError) → a ≢ Err Memory → b ≢ Err Memory →
        Lexed text.now a → Lexed text.now b → a ≡ b }
{}
