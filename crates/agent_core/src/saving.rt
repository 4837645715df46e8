// Saving an agent's state.
ghost use Rattle.std.specs.Prelude.{◌≤◌, length};
ghost use Rattle.agent_core.specs.Inside.{IsSoundKept, state_of};
ghost use Rattle.agent_state.specs.States.{text_of};
ghost use Rattle.agent_core.specs.Steps.{SavesKept};

use crate::kept_state::KeptState;
use agent_text::{Pocket, SaveResult, fill_saved, saved_size, saved_texts_are_short};
use desk_base::Room;
use std::alloc::Global;

impl KeptState {
    /// Saves the state.
    pub(crate) fn save<P: Pocket>(&mut self, alloc: Global, pocket: &mut P) -> SaveResult
        requires { IsSoundKept self.old }
        ensures { SavesKept self.old (P.told pocket.old) result self.new (P.told pocket.new) }
    {
        let Some(size) = saved_size(&self.histories, self.outbox.made()) else {
            return SaveResult::Memory;
        };
        saved_texts_are_short();
        match Room::with_capacity(alloc, size) {
            Ok(mut room) => self.save_in(pocket, &mut room),
            Err(_) => SaveResult::Memory,
        }
    }

    /// Saves the state, whose text there is room for.
    pub(crate) fn save_in<P: Pocket>(&mut self, pocket: &mut P, room: &mut Room) -> SaveResult
        requires sound { IsSoundKept self.old }
        requires within { length (text_of (state_of self.old)) ≤ room.old.capacity }
        ensures kept { SavesKept self.old (P.told pocket.old) result self.new (P.told pocket.new) }
        ensures text { room.old.capacity ≤ room.new.capacity }
    {
        room.clear();
        fill_saved(
            &self.name,
            self.next,
            &self.histories,
            self.outbox.made(),
            room,
        );
        let result = pocket.save(room.as_slice());
        if let SaveResult::Done = result {
            self.unsaved = false;
            self.outbox.show();
        }
        result
    }
}
