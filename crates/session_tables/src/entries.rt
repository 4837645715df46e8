// The entries of the folders.
ghost use Rattle.std.specs.Prelude.{◌≡◌, [], All, IfOk, OnOk, decimal, false, if◌then◌else◌, map};
ghost use Rattle.std.specs.Map.{keys_of};
ghost use Rattle.line_forms.specs.Paths.{IsPart};
ghost use Rattle.bf_world.specs.Answers.{HasAscendingNames, IsGoodAnswer};
ghost use Rattle.bf_world.specs.Maps.{IsMap, put};
ghost use Rattle.session_tables.specs.Inside.{named_entry, root_names, with_name, with_names};

use crate::shown::{is_shown_id, is_shown_name, is_shown_site};
use bf_machine::{Answer, EntryList};
use bf_world::{Entry, TextMap};
use desk_keep::{Change, Changes};
use itoa::Buffer;
use rel_lexer::Text;
use std::alloc::{AllocError, Global};

/// The entries of the root.
pub(crate) fn root_entries(alloc: Global) -> Result<Answer, AllocError>
    ensures entries { IfOk result (λ answer. answer ≡ Answer.Entries (map named_entry root_names)) }
    ensures good { IfOk result IsGoodAnswer }
    ensures ascending { IfOk result HasAscendingNames }
{
    let names = root_names(alloc)?;
    entries_of(alloc, &names)
}

/// The names in the root, all of which are folders.
fn root_names(alloc: Global) -> Result<TextMap<bool>, AllocError>
    ensures { IfOk result (λ names. names ≡ root_names) }
{
    let mut names = TextMap::new(alloc);
    names.put(alloc, "actions", true)?;
    names.put(alloc, "computers", true)?;
    names.put(alloc, "sites", true)?;
    Ok(names)
}

/// The entries of the folder in which these rows stand, in byte order of their names.
pub(crate) fn row_entries(alloc: Global, rows: Changes) -> Result<Answer, AllocError>
    ensures entries { IfOk result (λ answer. answer ≡ Answer.Entries (map named_entry (with_names rows []))) }
    ensures good { IfOk result IsGoodAnswer }
    ensures ascending { IfOk result HasAscendingNames }
{
    let names = names_of(alloc, rows.into_vec())?;
    entries_of(alloc, &names)
}

/// The names of these rows, each with whether it is a folder.
fn names_of(alloc: Global, mut left: Vec<Change>) -> Result<TextMap<bool>, AllocError>
    ensures { IfOk result (λ names. names ≡ with_names left.items []) }
{
    let mut names = TextMap::new(alloc);
    while let Some(row) = left.pop() {
        put_name(alloc, &row, &mut names)?;
    }
    Ok(names)
}

/// Puts the name of a row where it is shown, and whether it is a folder.
fn put_name(alloc: Global, row: &Change, names: &mut TextMap<bool>) -> Result<(), AllocError>
    ensures { OnOk result (names.new ≡ with_name row.now names.old) }
{
    match row {
        Change::Site { name, .. } => {
            let shown = is_shown_site(name.as_str());
            put_where(alloc, shown, name.as_str(), false, names)
        }
        Change::Action { id, .. } => put_id(alloc, is_shown_id(*id), *id, names),
        Change::File { .. } => Ok(()),
        Change::Computer(name) => {
            let shown = is_shown_name(name.as_str());
            put_where(alloc, shown, name.as_str(), true, names)
        }
        Change::Report { .. } => Ok(()),
        Change::Result(result) => {
            let action = result.row.action;
            let shown = is_shown_name(result.computer.as_str()) && is_shown_id(action);
            put_id(alloc, shown, action, names)
        }
    }
}

/// Puts the id of a file where it is shown.
fn put_id(alloc: Global, shown: bool, id: u64, names: &mut TextMap<bool>) -> Result<(), AllocError>
    ensures { OnOk result (names.new ≡ (if shown then put (decimal id) false names.old else names.old)) }
{
    put_where(alloc, shown, Buffer::new().format(id), false, names)
}

/// Puts a name where it is shown, and whether it is a folder.
fn put_where(
    alloc: Global,
    shown: bool,
    name: &str,
    folder: bool,
    names: &mut TextMap<bool>,
) -> Result<(), AllocError>
    ensures { OnOk result (names.new ≡ (if shown then put name.now folder names.old else names.old)) }
{
    if !shown {
        return Ok(());
    }
    names.put(alloc, name, folder)
}

/// The entries of these names, as what a look answers.
fn entries_of(alloc: Global, names: &TextMap<bool>) -> Result<Answer, AllocError>
    requires { All IsPart (keys_of names.now) }
    ensures entries { IfOk result (λ answer. answer ≡ Answer.Entries (map named_entry names.now)) }
    ensures good { IfOk result IsGoodAnswer }
    ensures ascending { IfOk result HasAscendingNames }
{
    let entries = entry_list(alloc, names)?;
    Ok(Answer::Entries(entries))
}

/// The entries of these names, which are in byte order.
fn entry_list(alloc: Global, names: &TextMap<bool>) -> Result<EntryList, AllocError>
    ensures entries { IfOk result (λ entries. entries ≡ map named_entry names.now) }
    ensures ordered { IfOk result (λ entries. IsMap names.now) }
{
    let mut entries = Vec::new(alloc);
    for (name, folder) in names.iter() {
        entries.push(Entry {
            name: Text::from_str(alloc, name.as_str())?,
            folder: *folder,
        })?;
    }
    Ok(EntryList::from_vec(entries))
}
