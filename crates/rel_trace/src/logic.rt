ghost use Rattle.std.specs.Prelude.{◌≡◌};
ghost use Rattle.rel_trace.specs.Joins.{decides};

/// A sign whose right side is drawn only where the left does not decide.
#[derive(Clone, Copy)]
pub enum Logic {
    /// `and`: a left side that is not True decides.
    And,
    /// `or`: a left side that is True decides.
    Or,
}

impl Logic {
    /// Whether a left side decides, that is True or is not.
    pub(crate) fn decides(self, left: bool) -> bool
        ensures { result ≡ decides self left }
    {
        match self {
            Logic::And => !left,
            Logic::Or => left,
        }
    }
}
