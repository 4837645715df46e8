ghost use Rattle.std.specs.Prelude.{◌≡◌};
ghost use Rattle.rel_lexer.specs.OperatorWords.{sign_words, unary_words};

/// An operator between two operands, one for each spelling.
#[derive(Clone, Copy, Debug, PartialEq, Eq)]
pub enum BinarySign {
    /// `|`
    Bar,
    /// `or`
    Or,
    /// `and`
    And,
    /// `=`
    Equal,
    /// `!=`
    NotEqual,
    /// `<`
    Less,
    /// `<=`
    LessOrEqual,
    /// `>`
    Greater,
    /// `>=`
    GreaterOrEqual,
    /// `is`
    Is,
    /// `is not`
    IsNot,
    /// `is contained by`
    IsContainedBy,
    /// `is not contained by`
    IsNotContainedBy,
    /// `contains`
    Contains,
    /// `starts with`
    StartsWith,
    /// `ends with`
    EndsWith,
    /// `does not contain`
    DoesNotContain,
    /// `does not start with`
    DoesNotStartWith,
    /// `does not end with`
    DoesNotEndWith,
    /// `+`
    Plus,
    /// `-`
    Minus,
    /// `&`
    Join,
    /// `*`
    Times,
    /// `/`
    Over,
    /// `mod`
    Mod,
}

impl BinarySign {
    /// The words of the sign, in lower case and joined by one space.
    pub fn words(self) -> &'static str
        ensures { result.now ≡ sign_words self }
    {
        match self {
            BinarySign::Bar => "|",
            BinarySign::Or => "or",
            BinarySign::And => "and",
            BinarySign::Equal => "=",
            BinarySign::NotEqual => "!=",
            BinarySign::Less => "<",
            BinarySign::LessOrEqual => "<=",
            BinarySign::Greater => ">",
            BinarySign::GreaterOrEqual => ">=",
            BinarySign::Is => "is",
            BinarySign::IsNot => "is not",
            BinarySign::IsContainedBy => "is contained by",
            BinarySign::IsNotContainedBy => "is not contained by",
            BinarySign::Contains => "contains",
            BinarySign::StartsWith => "starts with",
            BinarySign::EndsWith => "ends with",
            BinarySign::DoesNotContain => "does not contain",
            BinarySign::DoesNotStartWith => "does not start with",
            BinarySign::DoesNotEndWith => "does not end with",
            BinarySign::Plus => "+",
            BinarySign::Minus => "-",
            BinarySign::Join => "&",
            BinarySign::Times => "*",
            BinarySign::Over => "/",
            BinarySign::Mod => "mod",
        }
    }
}

/// An operator before its one operand, one for each spelling.
#[derive(Clone, Copy, Debug, PartialEq, Eq)]
pub enum UnarySign {
    /// `not`
    Not,
    /// `exists`
    Exists,
    /// `exist`
    Exist,
    /// `-`
    Minus,
}

impl UnarySign {
    /// The word of the sign.
    pub fn words(self) -> &'static str
        ensures { result.now ≡ unary_words self }
    {
        match self {
            UnarySign::Not => "not",
            UnarySign::Exists => "exists",
            UnarySign::Exist => "exist",
            UnarySign::Minus => "-",
        }
    }
}
