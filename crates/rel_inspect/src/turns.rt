ghost use Rattle.std.specs.Prelude.{◌≡◌, All};
ghost use Rattle.rel_sources.specs.Traces.{Absent, before, turns};
ghost use Rattle.rel_sources.specs.Draws.{item_in, IsSoundItem, values_in};
ghost use Rattle.rel_sources.specs.Sources.{items_in};
ghost use Rattle.rel_sources.specs.Steps.{Moves, Falls, GivesSound};

use rel_sources::{Drawn, HeldItem, ItemSource, WalkEvent};
use std::alloc::Global;

/// A turn, and then the item: what a source with several values does. What is held had its turn.
#[derive(Drop)]
pub(crate) struct Turns {
    pub(crate) held: HeldItem,
    pub(crate) source: ItemSource,
}

impl Turns {
    pub(crate) fn new(source: ItemSource) -> Turns
        ensures held { item_in result.held ≡ Absent }
        ensures source { result.source ≡ source }
    {
        Turns {
            held: HeldItem::Nothing,
            source,
        }
    }

    pub(crate) fn step(&mut self, alloc: Global) -> WalkEvent
        requires held { IsSoundItem (item_in self.old.held) }
        requires items { All IsSoundItem (items_in self.old.source) }
        ensures moves { Moves (before (item_in self.old.held) (turns (items_in self.old.source))) result
            (before (item_in self.new.held) (turns (items_in self.new.source))) }
        ensures falls { Falls result (values_in (item_in self.old.held)) (values_in (item_in self.new.held)) }
        ensures held { IsSoundItem (item_in self.new.held) }
        ensures items { All IsSoundItem (items_in self.new.source) }
        ensures gives_sound { GivesSound result }
    {
        if let Some(event) = self.held.give() {
            return event;
        }
        match self.source.draw(alloc) {
            Drawn::Item(item) => {
                self.held = item;
                WalkEvent::Turned
            }
            Drawn::End => WalkEvent::Over,
            Drawn::Memory => WalkEvent::Memory,
        }
    }
}
