ghost use Rattle.std.specs.Prelude.{◌≡◌, IfOk};

use crate::{EntryList, NameList, PackageList, SettingList};
use desk_base::Bytes;
use rel_lexer::Text;
use std::alloc::AllocError;

/// What a look answers.
#[derive(Drop)]
pub enum Answer {
    /// Nothing of that sort is there.
    Nothing,
    /// The size in bytes, and the moment at which it was last modified.
    File { size: i64, modified: i64 },
    /// A folder.
    Folder,
    /// The entries of a folder, in byte order of their names.
    Entries(EntryList),
    /// A file's bytes.
    Content(Bytes),
    /// The operating system. Its version is as it was written.
    System { name: Text, version: Text },
    /// The computer's name.
    Name(Text),
    /// Names of processes, in byte order.
    Names(NameList),
    /// Packages, in byte order of their names.
    Packages(PackageList),
    /// Settings, in byte order of their names.
    Settings(SettingList),
}

/// What stands in a folder, by the last part of its path.
#[derive(Drop)]
pub struct Entry {
    pub name: Text,
    pub folder: bool,
}

/// A package, and its version as it was written.
#[derive(Drop)]
pub struct PackageRow {
    pub name: Text,
    pub version: Text,
}

/// A setting, and the moment from which it holds.
#[derive(Drop)]
pub struct SettingRow {
    pub name: Text,
    pub value: Text,
    pub date: i64,
}

impl Answer {
    /// The same answer once more.
    pub fn copy(&self) -> Result<Answer, AllocError>
        ensures { IfOk result (λ answer. answer ≡ self.now) }
    {
        match self {
            Answer::Nothing => Ok(Answer::Nothing),
            Answer::File { size, modified } => Ok(Answer::File {
                size: *size,
                modified: *modified,
            }),
            Answer::Folder => Ok(Answer::Folder),
            Answer::Entries(entries) => Ok(Answer::Entries(entries.copy()?)),
            Answer::Content(content) => Ok(Answer::Content(content.copy()?)),
            Answer::System { name, version } => Ok(Answer::System {
                name: name.copy()?,
                version: version.copy()?,
            }),
            Answer::Name(name) => Ok(Answer::Name(name.copy()?)),
            Answer::Names(names) => Ok(Answer::Names(names.copy()?)),
            Answer::Packages(packages) => Ok(Answer::Packages(packages.copy()?)),
            Answer::Settings(settings) => Ok(Answer::Settings(settings.copy()?)),
        }
    }
}

impl Entry {
    /// The same entry once more.
    pub fn copy(&self) -> Result<Entry, AllocError>
        ensures { IfOk result (λ entry. entry ≡ self.now) }
    {
        Ok(Entry {
            name: self.name.copy()?,
            folder: self.folder,
        })
    }
}

impl PackageRow {
    /// The same package once more.
    pub fn copy(&self) -> Result<PackageRow, AllocError>
        ensures { IfOk result (λ row. row ≡ self.now) }
    {
        Ok(PackageRow {
            name: self.name.copy()?,
            version: self.version.copy()?,
        })
    }
}

impl SettingRow {
    /// The same setting once more.
    pub fn copy(&self) -> Result<SettingRow, AllocError>
        ensures { IfOk result (λ row. row ≡ self.now) }
    {
        Ok(SettingRow {
            name: self.name.copy()?,
            value: self.value.copy()?,
            date: self.date,
        })
    }
}
