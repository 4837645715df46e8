ghost use Rattle.std.specs.Prelude.{◌≡◌, [], IsTrue};
ghost use Rattle.host_edge.specs.Ordered.{AreEntries, CanFollow};

use bf_world::{Entry, EntryList};
use line_forms::read_part;
use std::alloc::{AllocError, Global};
use std::marker::Model;

/// Entries in strictly ascending byte order of their names, each of which is one part of a path.
#[derive(Drop)]
pub(crate) struct Ordered {
    entries: Vec<Entry>,
}

impl Model for Ordered {
    ghost use Rattle.std.specs.Prelude.{List};
    ghost use Rattle.bf_world.specs.declared.answer.Entry.{Entry};
    ghost use Rattle.host_edge.specs.Ordered.{AreEntries};

    ghost Value = { List Entry };

    ghost view = { λ o. o.entries.items };

    ghost invariant = { λ o. AreEntries o.entries.items };
}

impl Ordered {
    /// No entries.
    pub(crate) fn new(alloc: Global) -> Ordered
        ensures { result ≡ [] }
    {
        Ordered {
            entries: Vec::new(alloc),
        }
    }

    /// Appends an entry, where its name is one part and comes behind the last one.
    pub(crate) fn push(&mut self, entry: Entry) -> Result<(), AllocError> {
        if self.can_take(&entry) {
            self.entries.push(entry)?;
        }
        Ok(())
    }

    fn can_take(&self, entry: &Entry) -> bool
        ensures { IsTrue result → CanFollow self.now entry.now }
    {
        let Some(_) = read_part(entry.name.as_str().as_bytes()) else {
            return false;
        };
        match self.entries.last() {
            None => true,
            Some(last) => last.name.as_str().cmp(entry.name.as_str()).is_lt(),
        }
    }

    /// The list of them. It takes no memory.
    pub(crate) fn into_list(self) -> EntryList
        ensures same { result ≡ self }
        ensures good { AreEntries result }
    {
        EntryList::from_vec(self.entries)
    }
}
