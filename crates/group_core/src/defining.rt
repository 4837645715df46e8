ghost use Rattle.std.specs.Prelude.{◌≡◌, Contains, MatchOption, OnOk, OnErr};
ghost use Rattle.group_core.specs.Books.{DefinesGroup, HasPlace, with_group};

use crate::book::{Book, Defined};
use crate::kept_group::{KeptGroup, place_of};
use group_text::Group;
use std::alloc::AllocError;

impl Book {
    /// Keeps a group, in the place of one of its name, with its members.
    pub fn define(&mut self, group: &Group) -> Defined
        ensures { DefinesGroup self.old group.now result self.new }
    {
        if let Some(answer) = self.answer_at_once(group) {
            return answer;
        }
        match self.keep(group) {
            Ok(()) => Defined::Ok,
            Err(_) => Defined::Memory,
        }
    }

    /// What is answered to a group that is kept as it is, or for which there is no place.
    fn answer_at_once(&self, group: &Group) -> Option<Defined>
        ensures { MatchOption result ((¬ Contains self.now.groups group.now) × HasPlace self.now group.now)
            (λ answer. DefinesGroup self.now group.now answer self.now) }
    {
        match place_of(self.groups.as_slice(), &group.name) {
            Some(place) => {
                if self.groups[place].group.is(group) {
                    return Some(Defined::Again);
                }
                None
            }
            None => {
                if self.groups.len() as u64 >= self.limit {
                    return Some(Defined::Full(self.limit));
                }
                None
            }
        }
    }

    /// Keeps the group in the place of one of its name, or behind all, where there is a place. An error, which is want of memory, changes
    /// nothing.
    fn keep(&mut self, group: &Group) -> Result<(), AllocError>
        requires { HasPlace self.old group.now }
        ensures ok { OnOk result (self.new ≡ record self.old { groups = with_group group.now self.old.groups }) }
        ensures err { OnErr result (self.new ≡ self.old) }
    {
        let kept = KeptGroup::new(self.alloc, group, self.computers.as_slice())?;
        match place_of(self.groups.as_slice(), &group.name) {
            Some(place) => {
                self.groups[place] = kept;
                Ok(())
            }
            None => Ok(self.groups.push(kept)?),
        }
    }
}
