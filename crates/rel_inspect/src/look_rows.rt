ghost use Rattle.std.specs.Prelude.{◌≡◌, map, IfOk, None, Some};
ghost use Rattle.std.specs.Option.{option_copied};
ghost use Rattle.bf_world.specs.declared.key.Key.TheVariants as key;
ghost use Rattle.rel_sources.specs.Traces.{once, turns};
ghost use Rattle.rel_sources.specs.Rows.{text_item_of, path_item, entries_of, entry_items, lines_of, line_item, numbered, system_item, name_item, process_items, package_items, setting_items};
ghost use Rattle.rel_inspect.specs.Below.{descendants};
ghost use Rattle.rel_inspect.specs.Props.{with, looking, at_path, at_name};
ghost use Rattle.rel_inspect.specs.Facets.{facet_item};
ghost use Rattle.rel_inspect.specs.Left.{Begins};

use crate::descent::Descent;
use crate::facet::Facet;
use crate::listing::Listing;
use crate::rows::nothing;
use crate::walk::State;
use bf_world::{Key, is_part, is_path, joined};
use rel_lexer::Text;
use std::alloc::{AllocError, Global};

/// The folder at a path where it is asked for, or the file. A text that is no path makes no look.
pub(crate) fn at_path(alloc: Global, folder: bool, path: Option<&str>) -> Result<State, AllocError>
    ensures { IfOk result (λ st. Begins st (λ w s. with (option_copied path.entry) (at_path folder w))) }
{
    match path {
        Some(path) if is_path(path) => stat(alloc, folder, path),
        _ => Ok(nothing()),
    }
}

/// The same of what has this name in a folder. A name that isn't one part of a path makes no look.
pub(crate) fn at_name(
    alloc: Global,
    folder: bool,
    path: Option<&Text>,
    name: Option<&str>,
) -> Result<State, AllocError>
    ensures { IfOk result (λ st. Begins st (λ w s. with (option_copied name.entry)
        (λ n. with (option_copied path.entry) (λ p. at_name folder w p n)))) }
{
    match (path, name) {
        (Some(path), Some(name)) if is_part(name) => {
            let path = joined(alloc, path.as_str(), name)?;
            at_path(alloc, folder, Some(path.as_str()))
        }
        _ => Ok(nothing()),
    }
}

fn stat(alloc: Global, folder: bool, path: &str) -> Result<State, AllocError>
    ensures { IfOk result (λ st. Begins st (λ w s. looking w (key.Stat path.now) (λ a. once (path_item folder path.now a)))) }
{
    let key = Key::Stat(Text::from_str(alloc, path)?);
    let path = Text::from_str(alloc, path)?;
    let facet = if folder {
        Facet::Folder(path)
    } else {
        Facet::File(path)
    };
    Ok(State::LooksAt { key, facet })
}

/// What is asked of the file at a path.
pub(crate) fn of_stat(path: Option<&Text>, facet: Facet) -> Result<State, AllocError>
    ensures { IfOk result (λ st. Begins st (λ w s. with (option_copied path.entry)
        (λ p. looking w (key.Stat p) (λ a. once (facet_item facet a))))) }
{
    let Some(path) = path else {
        return Ok(nothing());
    };
    Ok(State::LooksAt {
        key: Key::Stat(path.copy()?),
        facet,
    })
}

/// What is asked of the content of the file at a path.
pub(crate) fn of_content(path: Option<&Text>, facet: Facet) -> Result<State, AllocError>
    ensures { IfOk result (λ st. Begins st (λ w s. with (option_copied path.entry)
        (λ p. looking w (key.Read p) (λ a. once (facet_item facet a))))) }
{
    let Some(path) = path else {
        return Ok(nothing());
    };
    Ok(State::LooksAt {
        key: Key::Read(path.copy()?),
        facet,
    })
}

/// The line of this number of the file at a path, counted from 1.
pub(crate) fn line_at(path: Option<&Text>, number: Option<i64>) -> Result<State, AllocError>
    ensures { IfOk result (λ st. Begins st (λ w s. with number (λ n. with (option_copied path.entry)
        (λ p. looking w (key.Read p) (λ a. once (text_item_of (numbered n (lines_of a)))))))) }
{
    match number {
        Some(number) => of_content(path, Facet::LineAt(number)),
        None => Ok(nothing()),
    }
}

/// The lines of the file at a path.
pub(crate) fn lines(path: Option<&Text>) -> Result<State, AllocError>
    ensures { IfOk result (λ st. Begins st (λ w s. with (option_copied path.entry)
        (λ p. looking w (key.Read p) (λ a. turns (map (line_item None) (lines_of a)))))) }
{
    match path {
        Some(path) => Ok(State::Lists {
            key: Key::Read(path.copy()?),
            listing: Listing::Lines(None),
        }),
        None => Ok(nothing()),
    }
}

/// The lines of the file at a path that contain a text.
pub(crate) fn lines_containing(
    alloc: Global,
    path: Option<&Text>,
    wanted: Option<&str>,
) -> Result<State, AllocError>
    ensures { IfOk result (λ st. Begins st (λ w s. with (option_copied wanted.entry) (λ t. with (option_copied path.entry)
        (λ p. looking w (key.Read p) (λ a. turns (map (line_item (Some t)) (lines_of a))))))) }
{
    match (path, wanted) {
        (Some(path), Some(wanted)) => Ok(State::Lists {
            key: Key::Read(path.copy()?),
            listing: Listing::Lines(Some(Text::from_str(alloc, wanted)?)),
        }),
        _ => Ok(nothing()),
    }
}

/// The folders in the folder of a path where these are asked for, or the files.
pub(crate) fn entries(folders: bool, path: Option<&Text>) -> Result<State, AllocError>
    ensures { IfOk result (λ st. Begins st (λ w s. with (option_copied path.entry)
        (λ p. looking w (key.List p) (λ a. turns (entry_items folders p (entries_of a)))))) }
{
    let Some(path) = path else {
        return Ok(nothing());
    };
    let key = Key::List(path.copy()?);
    let path = path.copy()?;
    Ok(State::Lists {
        key,
        listing: Listing::Entries { folders, path },
    })
}

/// The files below the folder of a path.
pub(crate) fn descendants(alloc: Global, path: Option<&Text>) -> Result<State, AllocError>
    ensures { IfOk result (λ st. Begins st (λ w s. with (option_copied path.entry) (descendants w))) }
{
    match path {
        Some(path) => Ok(State::Descends(Descent::new(alloc, path)?)),
        None => Ok(nothing()),
    }
}

/// The processes, those of a name where one is wanted.
pub(crate) fn processes(alloc: Global, wanted: Option<&str>) -> Result<State, AllocError>
    ensures { IfOk result (λ st. Begins st (λ w s. looking w key.Processes
        (λ a. turns (process_items (option_copied wanted.entry) a)))) }
{
    Ok(State::Lists {
        key: Key::Processes,
        listing: Listing::Processes(owned(alloc, wanted)?),
    })
}

/// The packages, those of a name where one is wanted.
pub(crate) fn packages(alloc: Global, wanted: Option<&str>) -> Result<State, AllocError>
    ensures { IfOk result (λ st. Begins st (λ w s. looking w key.Packages
        (λ a. turns (package_items (option_copied wanted.entry) a)))) }
{
    Ok(State::Lists {
        key: Key::Packages,
        listing: Listing::Packages(owned(alloc, wanted)?),
    })
}

/// The settings, those of a name where one is wanted.
pub(crate) fn settings(alloc: Global, wanted: Option<&str>) -> Result<State, AllocError>
    ensures { IfOk result (λ st. Begins st (λ w s. looking w key.Settings
        (λ a. turns (setting_items (option_copied wanted.entry) a)))) }
{
    Ok(State::Lists {
        key: Key::Settings,
        listing: Listing::Settings(owned(alloc, wanted)?),
    })
}

/// A text of one's own, where there is one.
fn owned(alloc: Global, text: Option<&str>) -> Result<Option<Text>, AllocError>
    ensures { IfOk result (λ owned. owned ≡ option_copied text.entry) }
{
    match text {
        Some(text) => Ok(Some(Text::from_str(alloc, text)?)),
        None => Ok(None),
    }
}

/// The operating system.
pub(crate) fn system() -> State
    ensures { Begins result (λ w s. looking w key.System (λ a. once (system_item a))) }
{
    State::LooksAt {
        key: Key::System,
        facet: Facet::System,
    }
}

/// The computer's name.
pub(crate) fn computer_name() -> State
    ensures { Begins result (λ w s. looking w key.ComputerName (λ a. once (name_item a))) }
{
    State::LooksAt {
        key: Key::ComputerName,
        facet: Facet::ComputerName,
    }
}
