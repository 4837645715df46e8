ghost use Rattle.rel_sources.specs.Draws.{Draws};
ghost use Rattle.rel_sources.specs.Sources.{items_in};

use crate::entries::Entries;
use crate::held::Drawn;
use crate::integers::Integers;
use crate::lines::Lines;
use crate::members::Members;
use crate::pieces::Pieces;
use std::alloc::Global;

/// What several values come from, a turn before each.
#[derive(Drop)]
pub enum ItemSource {
    Nothing,
    Entries(Entries),
    Members(Members),
    Lines(Lines),
    Integers(Integers),
    Pieces(Pieces),
}

impl ItemSource {
    pub fn draw(&mut self, alloc: Global) -> Drawn
        ensures { Draws (items_in self.old) result (items_in self.new) }
    {
        match self {
            ItemSource::Nothing => Drawn::End,
            ItemSource::Entries(entries) => entries.draw(alloc),
            ItemSource::Members(members) => members.draw(),
            ItemSource::Lines(lines) => lines.draw(alloc),
            ItemSource::Integers(integers) => integers.draw(),
            ItemSource::Pieces(pieces) => pieces.draw(alloc),
        }
    }
}
