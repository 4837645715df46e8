ghost use Rattle.std.specs.Prelude.{◌≡◌, ◌≤◌, length, map};
ghost use Rattle.std.specs.List.{IsDistinct};
ghost use Rattle.std.specs.Str.{bytes_eq};
ghost use Rattle.group_text.specs.declared.group.Group.{Group};
ghost use Rattle.group_text.specs.Properties.{AreProperties};
ghost use Rattle.group_core.specs.Books.{AnswersMembers, empty_book};

use crate::computers::Computer;
use crate::kept_group::{KeptGroup, place_of};
use bf_machine::Unseen;
use group_sample::Sample;
use group_text::Property;
use rel_lexer::Text;
use std::alloc::Global;
use std::marker::Model;

/// What becomes of an analysis.
#[derive(Drop)]
pub enum Added {
    /// The properties that weren't kept are kept now.
    Ok,
    /// Each of its properties was kept as it is.
    Again,
    /// The first of its names that is that of another property.
    Taken(Text),
    /// There would be more properties than this.
    Full(u64),
    /// Want of memory. Nothing is changed.
    Memory,
}

/// What becomes of a group.
#[derive(Clone, Copy)]
pub enum Defined {
    /// It is kept, in the place of one of its name.
    Ok,
    /// It was kept as it is.
    Again,
    /// There would be more groups than this.
    Full(u64),
    /// Want of memory. Nothing is changed.
    Memory,
}

/// What becomes of a sample.
#[derive(Clone, Copy)]
pub enum PutAnswer {
    /// So many of its rows are the newest of their computer and property.
    Changed(u32),
    /// Want of memory. Nothing is changed.
    Memory,
}

/// What is measured everywhere, the newest row of each property of each computer, and the groups with their members. Contracts see the
/// properties, the groups and all samples.
#[derive(Drop)]
pub struct Book {
    pub(crate) alloc: Global,
    /// The most properties, and the most groups.
    pub(crate) limit: u64,
    pub(crate) properties: Vec<Property>,
    pub(crate) groups: Vec<KeptGroup>,
    pub(crate) computers: Vec<Computer>,
    pub(crate) samples: Unseen<Sample>,
}

impl Model for Book {
    ghost use Rattle.std.specs.Prelude.{map};
    ghost use Rattle.group_core.specs.declared.kept_group.KeptGroup.{KeptGroup};
    ghost use Rattle.group_core.specs.Books.{BookState};
    ghost use Rattle.group_core.specs.Keeping.{KeepsBook};

    ghost Value = { BookState };

    ghost view = { λ b. record {
      limit = b.limit;
      properties = b.properties.items;
      groups = map (λ (kept : KeptGroup). kept.group) b.groups.items;
      samples = b.samples;
    } };

    ghost invariant = { KeepsBook };
}

impl Book {
    /// A book that keeps nothing, and at most `limit` properties and as many groups. It takes no memory.
    pub fn new(alloc: Global, limit: u64) -> Book
        ensures { result ≡ empty_book limit }
    {
        Book {
            alloc,
            limit,
            properties: Vec::new(alloc),
            groups: Vec::new(alloc),
            computers: Vec::new(alloc),
            samples: Unseen::new(),
        }
    }

    /// The properties, in the order in which they were added.
    pub fn properties(&self) -> &[Property]
        ensures properties { result.now ≡ self.now.properties }
        ensures good { AreProperties result.now }
        ensures few { length result.now ≤ self.now.limit }
    {
        self.properties.as_slice()
    }

    /// The names of the members of the group of this name, in byte order.
    pub fn members(&self, group: &Text) -> Option<&[Text]>
        ensures members { AnswersMembers self.now group.now result }
        ensures distinct { IsDistinct bytes_eq (map (λ (g : Group). g.name) self.now.groups) }
    {
        match place_of(self.groups.as_slice(), group) {
            Some(place) => Some(self.groups[place].members.as_slice()),
            None => None,
        }
    }
}
