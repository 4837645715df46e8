ghost use Rattle.std.specs.Prelude.{◌≡◌, All, map};
ghost use Rattle.bf_world.specs.Answers.{IsGoodAnswer};
ghost use Rattle.rel_sources.specs.Rows.{entries_of, entry_items, lines_of, line_item, process_items, package_items, setting_items};
ghost use Rattle.rel_sources.specs.Draws.{IsSoundItem};
ghost use Rattle.rel_sources.specs.Sources.{items_in};
ghost use Rattle.rel_inspect.specs.Facets.{listed_items};

use bf_world::Answer;
use rel_lexer::Text;
use rel_sources::{Entries, ItemSource, Lines, Members, Rows};

/// Which of the things that a look shows are asked for.
#[derive(Drop)]
pub(crate) enum Listing {
    /// The folders in the folder of this path where these are asked for, or the files.
    Entries { folders: bool, path: Text },
    /// All lines, or those that contain a text.
    Lines(Option<Text>),
    /// All processes, or those of a name.
    Processes(Option<Text>),
    /// All packages, or those of a name.
    Packages(Option<Text>),
    /// All settings, or those of a name.
    Settings(Option<Text>),
}

impl Listing {
    /// What the answer of a look gives. It takes no memory.
    pub(crate) fn of(self, answer: Answer) -> ItemSource
        requires { IsGoodAnswer answer }
        ensures items { items_in result ≡ listed_items self answer }
        ensures sound { All IsSoundItem (items_in result) }
    {
        match self {
            Listing::Entries { folders, path } => entries_of(folders, path, answer),
            Listing::Lines(wanted) => lines_of(wanted, answer),
            Listing::Processes(wanted) => processes_of(wanted, answer),
            Listing::Packages(wanted) => packages_of(wanted, answer),
            Listing::Settings(wanted) => settings_of(wanted, answer),
        }
    }
}

fn entries_of(folders: bool, path: Text, answer: Answer) -> ItemSource
    ensures { items_in result ≡ entry_items folders path (entries_of answer) }
{
    match answer {
        Answer::Entries(entries) => ItemSource::Entries(Entries::new(folders, path, entries)),
        _ => ItemSource::Nothing,
    }
}

fn lines_of(wanted: Option<Text>, answer: Answer) -> ItemSource
    ensures { items_in result ≡ map (line_item wanted) (lines_of answer) }
{
    match answer {
        Answer::Content(content) => ItemSource::Lines(Lines::new(wanted, content)),
        _ => ItemSource::Nothing,
    }
}

fn processes_of(wanted: Option<Text>, answer: Answer) -> ItemSource
    ensures { items_in result ≡ process_items wanted answer }
{
    match answer {
        Answer::Names(names) => ItemSource::Members(Members::new(wanted, Rows::Processes(names))),
        _ => ItemSource::Nothing,
    }
}

fn packages_of(wanted: Option<Text>, answer: Answer) -> ItemSource
    ensures { items_in result ≡ package_items wanted answer }
{
    match answer {
        Answer::Packages(rows) => ItemSource::Members(Members::new(wanted, Rows::Packages(rows))),
        _ => ItemSource::Nothing,
    }
}

fn settings_of(wanted: Option<Text>, answer: Answer) -> ItemSource
    ensures { items_in result ≡ setting_items wanted answer }
{
    match answer {
        Answer::Settings(rows) => ItemSource::Members(Members::new(wanted, Rows::Settings(rows))),
        _ => ItemSource::Nothing,
    }
}
