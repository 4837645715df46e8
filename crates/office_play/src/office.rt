ghost use Rattle.std.specs.Prelude.{◌≡◌, ◌+◌, length};
ghost use Rattle.office_play.specs.Kept.{empty_kept};
ghost use Rattle.office_play.specs.Links.{IsGoodOffice, IsNamed, IsPlaceOf};
ghost use Rattle.office_play.specs.States.{kept_of};

use crate::computer::PlayedComputer;
use crate::message::Message;
use crate::relay::PlayedRelay;
use bf_world::TextMap;
use desk_keep::SureKeeper;
use group_core::Book;
use rel_lexer::Text;
use std::alloc::Global;
use std::marker::Model;

/// An office that is played. Contracts see what it keeps. None of its devices fails. Where a word ends for want of memory, the office is
/// of no use from then on.
#[derive(Drop)]
pub(crate) struct Office {
    pub(crate) alloc: Global,
    pub(crate) keeper: SureKeeper,
    /// In the order in which they were named, as the computers.
    pub(crate) relays: Vec<PlayedRelay>,
    /// Where the relay of a name stands.
    pub(crate) relay_places: TextMap<usize>,
    pub(crate) computers: Vec<PlayedComputer>,
    pub(crate) computer_places: TextMap<usize>,
    /// In the order in which they were sent, of which the first has the number 1.
    pub(crate) messages: Vec<Message>,
    /// What is measured, and the groups.
    pub(crate) book: Book,
}

/// The most properties of the book, and the most groups.
const MOST_KEPT: u64 = 1000;

impl Model for Office {
    ghost use Rattle.std.specs.Prelude.{map};
    ghost use Rattle.std.specs.Coded.{codes};
    ghost use Rattle.agent_core.specs.contracts.agent.Agent as of_agent;
    ghost use Rattle.office_play.specs.Shown.{shown_message};
    ghost use Rattle.office_play.specs.States.{OfficeState};

    ghost Value = { OfficeState };

    ghost coded = { Prim.hlevel (codes, of_agent.the_row.coded) };

    ghost view = { λ o. record {
      rows = o.keeper;
      relays = o.relays.items;
      relay_places = o.relay_places;
      computers = o.computers.items;
      computer_places = o.computer_places;
      messages = map shown_message o.messages.items;
      book = o.book;
    } };
}

impl Office {
    /// An office before its first word. It takes no memory.
    pub(crate) fn new(alloc: Global) -> Office
        ensures { kept_of result ≡ empty_kept }
    {
        Office {
            alloc,
            keeper: SureKeeper::new(alloc),
            relays: Vec::new(alloc),
            relay_places: TextMap::new(alloc),
            computers: Vec::new(alloc),
            computer_places: TextMap::new(alloc),
            messages: Vec::new(alloc),
            book: Book::new(alloc, MOST_KEPT),
        }
    }

    /// Where the relay of this name stands.
    pub(crate) fn relay_place(&self, name: &Text) -> usize
        requires good { IsGoodOffice (kept_of self.now) }
        requires name { IsNamed name.now (kept_of self.now).relays }
        ensures { IsPlaceOf name.now (kept_of self.now).relays result }
    {
        let Some(place) = self.relay_places.get(name.as_str()) else {
            unreachable!();
        };
        *place
    }

    /// Where the computer of this name stands.
    pub(crate) fn computer_place(&self, name: &Text) -> usize
        requires good { IsGoodOffice (kept_of self.now) }
        requires name { IsNamed name.now (kept_of self.now).computers }
        ensures { IsPlaceOf name.now (kept_of self.now).computers result }
    {
        let Some(place) = self.computer_places.get(name.as_str()) else {
            unreachable!();
        };
        *place
    }

    /// The number of the next message.
    pub(crate) fn next_number(&self) -> u64
        ensures { result ≡ length (kept_of self.now).messages + 1 }
    {
        self.messages.len() as u64 + 1
    }
}
