ghost use Rattle.std.specs.Prelude.{◌≡◌};
ghost use Rattle.rel_sources.specs.Rows.{is_of_sort, entry_items};
ghost use Rattle.rel_sources.specs.Sources.{entries_left};
ghost use Rattle.rel_sources.specs.Draws.{Draws};

use crate::held::{Drawn, HeldItem};
use bf_world::{Entry, EntryList, joined};
use rel_lexer::Text;
use rel_value::Value;
use std::alloc::Global;

/// The entries of a folder of one sort.
#[derive(Drop)]
pub struct Entries {
    folders: bool,
    path: Text,
    entries: Vec<Entry>,
    next: usize,
}

impl Entries {
    /// The folders in the folder of this path, or the files. It takes no memory.
    pub fn new(folders: bool, path: Text, entries: EntryList) -> Entries
        ensures { entries_left result ≡ entry_items folders path entries }
    {
        let mut entries = entries.into_vec();
        entries.retain(|entry| is_of_sort(folders, entry));
        Entries {
            folders,
            path,
            entries,
            next: 0,
        }
    }

    pub fn draw(&mut self, alloc: Global) -> Drawn
        ensures { Draws (entries_left self.old) result (entries_left self.new) }
    {
        let Some(entry) = self.entries.as_slice().get(self.next) else {
            return Drawn::End;
        };
        let Ok(path) = joined(alloc, self.path.as_str(), entry.name.as_str()) else {
            return Drawn::Memory;
        };
        self.next += 1;
        if self.folders {
            Drawn::Item(HeldItem::Value(Value::Folder(path)))
        } else {
            Drawn::Item(HeldItem::Value(Value::File(path)))
        }
    }
}

/// Whether an entry is a folder where these are asked for, or a file.
fn is_of_sort(folders: bool, entry: &Entry) -> bool
    ensures { result ≡ is_of_sort folders entry.now }
{
    if folders { entry.folder } else { !entry.folder }
}
