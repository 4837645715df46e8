ghost use Rattle.std.specs.Prelude.{◌≡◌, map};
ghost use Rattle.rel_sources.specs.Rows.{integers, integer_item};
ghost use Rattle.rel_sources.specs.Sources.{integers_left};
ghost use Rattle.rel_sources.specs.Draws.{Draws};

use crate::held::{Drawn, HeldItem};
use rel_value::Value;

/// The integers from one to another.
#[derive(Drop)]
pub struct Integers {
    next: i64,
    last: i64,
    over: bool,
}

impl Integers {
    pub fn new(first: i64, last: i64) -> Integers
        ensures { integers_left result ≡ map integer_item (integers first last) }
    {
        Integers {
            next: first,
            last,
            over: false,
        }
    }

    pub fn draw(&mut self) -> Drawn
        ensures { Draws (integers_left self.old) result (integers_left self.new) }
    {
        if self.over || self.next > self.last {
            return Drawn::End;
        }
        let number = self.next;
        if number == self.last {
            self.over = true;
        } else {
            self.next = number + 1;
        }
        Drawn::Item(HeldItem::Value(Value::Integer(number)))
    }
}
