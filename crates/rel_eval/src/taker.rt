use rel_lexer::Place;
use rel_trace::RelKind;
use rel_value::Value;

/// What a taker answers to a value.
#[derive(Clone, Copy)]
pub enum Take {
    /// It asks for the next value.
    More,
    /// It wants no further value.
    Enough,
    /// Its memory ran out.
    Memory,
}

/// What is handed the values of a question.
pub trait Taker {
    ghost use Rattle.rel_value.specs.Operands.{IsSound};
    ghost use Rattle.rel_value.specs.Plain.{Plain};
    ghost use Rattle.rel_value.specs.Views.{shown};
    ghost use Rattle.rel_eval.specs.declared.taker.Take.{Take};

    /// It was this, is handed this value, answers so and is that.
    ghost takes: { Self → Plain → Take → Self → Type 0 };

    /// Takes the next value.
    fn take(&mut self, value: &Value) -> Take
        requires sound { IsSound (shown value.now) }
        ensures { takes self.old (shown value.now) result self.new };
}

/// How an answer ends.
#[derive(Clone, Copy)]
pub enum Ended {
    /// All values were taken.
    Stop,
    /// The taker has enough.
    Enough,
    /// There are no more values because of this error.
    Error(RelKind, Place),
    /// The look at this place failed.
    Failed(Place),
    /// Memory ran out, here or in the taker.
    Memory,
}
