ghost use Rattle.std.specs.Prelude.{◌≡◌, MatchOption, IfSome};
ghost use Rattle.rel_sources.specs.Traces.{Trace, Absent, before, text_item};
ghost use Rattle.rel_sources.specs.Draws.{item_in, IsSoundItem, values_in};
ghost use Rattle.rel_sources.specs.Steps.{Moves, Falls, GivesSound};

use crate::event::WalkEvent;
use rel_lexer::Text;
use rel_value::Value;
use std::mem;

/// The most bytes of a text that is given.
const LONGEST: usize = 1_048_576;

/// What is to be given next: no value, one, or a text that is too long.
#[derive(Drop)]
pub enum HeldItem {
    Nothing,
    Value(Value),
    TooLong,
}

/// What drawing the next item gives.
#[derive(Drop)]
pub enum Drawn {
    Item(HeldItem),
    End,
    Memory,
}

impl HeldItem {
    /// A text, where it isn't too long.
    pub fn text(text: Text) -> HeldItem
        ensures item { item_in result ≡ text_item text }
        ensures sound { IsSoundItem (item_in result) }
    {
        if text.as_str().len() > LONGEST {
            HeldItem::TooLong
        } else {
            HeldItem::Value(Value::Text(text))
        }
    }

    /// Gives what is held, where something is. A text that is too long stays held.
    pub fn give(&mut self) -> Option<WalkEvent>
        ensures moves { MatchOption result ((item_in self.old ≡ Absent) × (item_in self.new ≡ Absent))
            (λ event. (t : Trace) → Moves (before (item_in self.old) t) event (before (item_in self.new) t)) }
        ensures falls { IfSome result (λ event. Falls event (values_in (item_in self.old)) (values_in (item_in self.new))) }
        ensures given { values_in (item_in self.new) ≡ 0 }
        ensures sound { IsSoundItem (item_in self.old) → IsSoundItem (item_in self.new) }
        ensures gives_sound { IsSoundItem (item_in self.old) → IfSome result GivesSound }
    {
        match mem::replace(self, HeldItem::Nothing) {
            HeldItem::Nothing => None,
            HeldItem::Value(value) => Some(WalkEvent::Given(value)),
            HeldItem::TooLong => {
                *self = HeldItem::TooLong;
                Some(WalkEvent::TextTooLong)
            }
        }
    }
}
