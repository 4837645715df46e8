ghost use Rattle.std.specs.Prelude.{◌≡◌};
ghost use Rattle.rel_trace.specs.Folds.{ending, held_first, is_settled, more};
ghost use Rattle.rel_trace.specs.Scopes.{lent};
ghost use Rattle.rel_trace.specs.Works.{Works};

use crate::Held;
use crate::concatenation::{empty_text, in_full, joined_by};
use crate::operation::{beyond, signed};
use crate::worked::Worked;
use rel_lexer::BinarySign;
use std::alloc::Global;

/// What is made of all values of an object.
#[derive(Clone, Copy)]
pub enum Fold {
    /// `number of`
    Number,
    /// `sum of` Integers.
    IntegerSum,
    /// `sum of` Intervals.
    IntervalSum,
    /// `maximum of`: of equals the first.
    Maximum,
    /// `minimum of`: of equals the first.
    Minimum,
    /// `conjunction of`
    Conjunction,
    /// `disjunction of`
    Disjunction,
    /// `concatenation of` without a separator.
    Concatenation,
    /// `concatenation of` with its argument between the texts.
    Separated,
}

impl Fold {
    /// What it holds before the first value.
    pub(crate) fn held_first(self) -> Option<Held>
        ensures { result ≡ held_first self }
    {
        match self {
            Fold::Number => Some(Held::integer(0)),
            Fold::IntegerSum => Some(Held::integer(0)),
            Fold::IntervalSum => Some(Held::interval(0)),
            Fold::Conjunction => Some(Held::boolean(true)),
            Fold::Disjunction => Some(Held::boolean(false)),
            _ => None,
        }
    }

    /// What it holds after one more value.
    pub(crate) fn more(
        self,
        alloc: Global,
        separator: Option<&Held>,
        held: Option<Held>,
        value: Held,
    ) -> Worked
        ensures { Works (more self (lent separator.entry) held value) result }
    {
        match self {
            Fold::Number => signed(alloc, BinarySign::Plus, held, Held::integer(1)),
            Fold::IntegerSum => signed(alloc, BinarySign::Plus, held, value),
            Fold::IntervalSum => signed(alloc, BinarySign::Plus, held, value),
            Fold::Maximum => beyond(alloc, BinarySign::Less, held, value),
            Fold::Minimum => beyond(alloc, BinarySign::Greater, held, value),
            Fold::Conjunction => signed(alloc, BinarySign::And, held, value),
            Fold::Disjunction => signed(alloc, BinarySign::Or, held, value),
            Fold::Concatenation => joined_by(alloc, None, held, value),
            Fold::Separated => joined_by(alloc, separator, held, value),
        }
    }

    /// Whether no further value can change what it holds.
    pub(crate) fn is_settled(self, held: &Held) -> bool
        ensures { result ≡ is_settled self held.now }
    {
        match self {
            Fold::Conjunction => held.is_false(),
            Fold::Disjunction => held.is_true(),
            _ => false,
        }
    }

    /// What it gives at the end.
    pub(crate) fn sum_up(self, alloc: Global, held: Option<Held>) -> Worked
        ensures { Works (ending self held) result }
    {
        match held {
            Some(value) => in_full(alloc, value),
            None => match self {
                Fold::Concatenation => empty_text(alloc),
                Fold::Separated => empty_text(alloc),
                _ => Worked::Without,
            },
        }
    }
}
