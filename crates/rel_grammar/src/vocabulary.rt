// The words that the grammar knows.
ghost use Rattle.std.specs.Prelude.{◌≡◌, MatchOption};
ghost use Rattle.std.specs.Bool.{Decides};
ghost use Rattle.std.specs.List.{list_any};
ghost use Rattle.std.specs.Str.{bytes_eq};
ghost use Rattle.rel_grammar.specs.Shapes.{all_reserved, helper_spelling, kind_of, reserved_of, reserved_spelling, sign as sign_shape};
ghost use Rattle.rel_grammar.specs.Reads.{IsNoWord, IsWord, fixed_kind};

use rel_lexer::{Sign, Text, TokenKind};

/// The words that never stand in a name, in the order in which the language lists them.
#[derive(Clone, Copy)]
pub enum Reserved {
    Of,
    Whose,
    It,
    As,
    If,
    Then,
    Else,
    And,
    Or,
    Not,
    Exists,
    Exist,
    Mod,
    Is,
    Contains,
    Contained,
    Starts,
    Ends,
    Does,
}

const RESERVED: [Reserved; 19] = [
    Reserved::Of,
    Reserved::Whose,
    Reserved::It,
    Reserved::As,
    Reserved::If,
    Reserved::Then,
    Reserved::Else,
    Reserved::And,
    Reserved::Or,
    Reserved::Not,
    Reserved::Exists,
    Reserved::Exist,
    Reserved::Mod,
    Reserved::Is,
    Reserved::Contains,
    Reserved::Contained,
    Reserved::Starts,
    Reserved::Ends,
    Reserved::Does,
];

/// The words that are part of a relation's sign directly after its first words, and words like others elsewhere.
#[derive(Clone, Copy)]
pub enum Helper {
    By,
    With,
    Contain,
    Start,
    End,
}

/// A token that is always the same.
#[derive(Clone, Copy)]
pub(crate) enum Fixed {
    Sign(Sign),
    Reserved(Reserved),
    Helper(Helper),
}

impl Reserved {
    pub(crate) fn spelling(self) -> &'static str
        ensures { result.now ≡ reserved_spelling self }
    {
        match self {
            Reserved::Of => "of",
            Reserved::Whose => "whose",
            Reserved::It => "it",
            Reserved::As => "as",
            Reserved::If => "if",
            Reserved::Then => "then",
            Reserved::Else => "else",
            Reserved::And => "and",
            Reserved::Or => "or",
            Reserved::Not => "not",
            Reserved::Exists => "exists",
            Reserved::Exist => "exist",
            Reserved::Mod => "mod",
            Reserved::Is => "is",
            Reserved::Contains => "contains",
            Reserved::Contained => "contained",
            Reserved::Starts => "starts",
            Reserved::Ends => "ends",
            Reserved::Does => "does",
        }
    }
}

impl Helper {
    pub(crate) fn spelling(self) -> &'static str
        ensures { result.now ≡ helper_spelling self }
    {
        match self {
            Helper::By => "by",
            Helper::With => "with",
            Helper::Contain => "contain",
            Helper::Start => "start",
            Helper::End => "end",
        }
    }
}

impl Fixed {
    /// Whether a token of this kind is this one.
    pub(crate) fn is(self, kind: &TokenKind) -> bool
        ensures { Decides result (kind_of kind.now ≡ fixed_kind self) }
    {
        match kind {
            TokenKind::Sign(sign) => self.is_sign(*sign),
            TokenKind::Word(word) => self.is_word(word.as_str()),
            TokenKind::Number(_) => false,
            TokenKind::Text(_) => false,
        }
    }

    fn is_sign(self, sign: Sign) -> bool
        ensures { Decides result (sign_shape sign ≡ fixed_kind self) }
    {
        match self {
            Fixed::Sign(wanted) => sign == wanted,
            Fixed::Reserved(_) => false,
            Fixed::Helper(_) => false,
        }
    }

    fn is_word(self, word: &str) -> bool
        ensures { Decides result (reserved_of word.now all_reserved ≡ fixed_kind self) }
    {
        match self {
            Fixed::Sign(_) => false,
            Fixed::Reserved(reserved) => word == reserved.spelling(),
            Fixed::Helper(helper) => word == helper.spelling(),
        }
    }
}

/// The text of a word that may stand in a name.
pub(crate) fn free_word(kind: &TokenKind) -> Option<&Text>
    ensures { MatchOption result (IsNoWord (kind_of kind.now)) (λ text. IsWord (kind_of kind.now) text.now) }
{
    let TokenKind::Word(text) = kind else {
        return None;
    };
    if is_reserved(text.as_str()) {
        return None;
    }
    Some(text)
}

fn is_reserved(word: &str) -> bool
    ensures { result ≡ list_any (λ r. bytes_eq word.now (reserved_spelling r)) all_reserved }
{
    RESERVED.iter().any(|reserved| word == reserved.spelling())
}
