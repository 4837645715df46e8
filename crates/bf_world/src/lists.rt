ghost use Rattle.std.specs.Prelude.{◌≡◌, ◌++◌, ◌∷◌, [], IfOk, OnOk, OnErr};

use crate::{Entry, PackageRow, SettingRow};
use rel_lexer::Text;
use std::alloc::AllocError;
use std::marker::Model;

/// The entries of a folder. Contracts see the list of them.
#[derive(Drop)]
pub struct EntryList {
    items: Vec<Entry>,
}

impl Model for EntryList {
    ghost use Rattle.std.specs.Prelude.{List};
    ghost use Rattle.bf_world.specs.declared.answer.Entry.{Entry};

    ghost Value = { List Entry };

    ghost view = { λ l. l.items.items };
}

impl EntryList {
    /// The list of these entries. It takes no memory.
    pub fn from_vec(entries: Vec<Entry>) -> EntryList
        ensures { result ≡ entries.items }
    {
        EntryList { items: entries }
    }

    /// The entries, to be changed. It takes no memory.
    pub fn into_vec(self) -> Vec<Entry>
        ensures { result.items ≡ self }
    {
        self.items
    }

    /// The entries.
    pub fn as_slice(&self) -> &[Entry]
        ensures { result.now ≡ self.now }
    {
        self.items.as_slice()
    }

    /// The same entries once more.
    pub fn copy(&self) -> Result<EntryList, AllocError>
        ensures { IfOk result (λ entries. entries ≡ self.now) }
    {
        let mut copies = Vec::new(*self.items.allocator());
        for entry in self.items.as_slice() {
            copies.push(entry.copy()?)?;
        }
        Ok(EntryList::from_vec(copies))
    }
}

/// Names. Contracts see the list of them.
#[derive(Drop)]
pub struct NameList {
    items: Vec<Text>,
}

impl Model for NameList {
    ghost use Rattle.std.specs.Prelude.{List, ℕ};

    ghost Value = { List (List ℕ) };

    ghost view = { λ l. l.items.items };
}

impl NameList {
    /// The list of these names. It takes no memory.
    pub fn from_vec(names: Vec<Text>) -> NameList
        ensures { result ≡ names.items }
    {
        NameList { items: names }
    }

    /// The names, to be changed. It takes no memory.
    pub fn into_vec(self) -> Vec<Text>
        ensures { result.items ≡ self }
    {
        self.items
    }

    /// The names.
    pub fn as_slice(&self) -> &[Text]
        ensures { result.now ≡ self.now }
    {
        self.items.as_slice()
    }

    /// The same names once more.
    pub fn copy(&self) -> Result<NameList, AllocError>
        ensures { IfOk result (λ names. names ≡ self.now) }
    {
        let mut copies = Vec::new(*self.items.allocator());
        for name in self.items.as_slice() {
            copies.push(name.copy()?)?;
        }
        Ok(NameList::from_vec(copies))
    }
}

/// Packages with their versions. Contracts see the list of them.
#[derive(Drop)]
pub struct PackageList {
    items: Vec<PackageRow>,
}

impl Model for PackageList {
    ghost use Rattle.std.specs.Prelude.{List};
    ghost use Rattle.bf_world.specs.declared.answer.PackageRow.{PackageRow};

    ghost Value = { List PackageRow };

    ghost view = { λ l. l.items.items };
}

impl PackageList {
    /// The list of these packages. It takes no memory.
    pub fn from_vec(packages: Vec<PackageRow>) -> PackageList
        ensures { result ≡ packages.items }
    {
        PackageList { items: packages }
    }

    /// Appends a package. At an error nothing is appended.
    pub fn push(&mut self, row: PackageRow) -> Result<(), AllocError>
        ensures ok { OnOk result (self.new ≡ self.old ++ row ∷ []) }
        ensures err { OnErr result (self.new ≡ self.old) }
    {
        self.items.push(row)?;
        Ok(())
    }

    /// The packages, to be changed. It takes no memory.
    pub fn into_vec(self) -> Vec<PackageRow>
        ensures { result.items ≡ self }
    {
        self.items
    }

    /// The packages.
    pub fn as_slice(&self) -> &[PackageRow]
        ensures { result.now ≡ self.now }
    {
        self.items.as_slice()
    }

    /// The same packages once more.
    pub fn copy(&self) -> Result<PackageList, AllocError>
        ensures { IfOk result (λ packages. packages ≡ self.now) }
    {
        let mut copies = Vec::new(*self.items.allocator());
        for package in self.items.as_slice() {
            copies.push(package.copy()?)?;
        }
        Ok(PackageList::from_vec(copies))
    }
}

/// Settings. Contracts see the list of them.
#[derive(Drop)]
pub struct SettingList {
    items: Vec<SettingRow>,
}

impl Model for SettingList {
    ghost use Rattle.std.specs.Prelude.{List};
    ghost use Rattle.bf_world.specs.declared.answer.SettingRow.{SettingRow};

    ghost Value = { List SettingRow };

    ghost view = { λ l. l.items.items };
}

impl SettingList {
    /// The list of these settings. It takes no memory.
    pub fn from_vec(settings: Vec<SettingRow>) -> SettingList
        ensures { result ≡ settings.items }
    {
        SettingList { items: settings }
    }

    /// The settings, to be changed. It takes no memory.
    pub fn into_vec(self) -> Vec<SettingRow>
        ensures { result.items ≡ self }
    {
        self.items
    }

    /// The settings.
    pub fn as_slice(&self) -> &[SettingRow]
        ensures { result.now ≡ self.now }
    {
        self.items.as_slice()
    }

    /// The same settings once more.
    pub fn copy(&self) -> Result<SettingList, AllocError>
        ensures { IfOk result (λ settings. settings ≡ self.now) }
    {
        let mut copies = Vec::new(*self.items.allocator());
        for setting in self.items.as_slice() {
            copies.push(setting.copy()?)?;
        }
        Ok(SettingList::from_vec(copies))
    }
}
