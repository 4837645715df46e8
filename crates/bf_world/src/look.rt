ghost use Rattle.std.specs.Prelude.{◌≡◌, IfOk, map, if◌then◌else◌, is_some};
ghost use Rattle.bf_world.specs.Maps.{at};
ghost use Rattle.std.specs.Map.{keys_of};
ghost use Rattle.bf_world.specs.Places.{node_at, is_folder, is_file, has_parent};
ghost use Rattle.bf_world.specs.Answers.{IsGoodAnswer, HasAscendingNames};
ghost use Rattle.bf_world.specs.Sound.{IsSound, HasMaps};
ghost use Rattle.bf_world.specs.Shown.{shown, stat_of, read_of, entry_in, entries_in, package_row, setting_row};

use crate::path::{is_part, joined, last_name, parent_path};
use crate::{
    Answer, Entry, EntryList, Key, NameList, Node, PackageList, PackageRow, SettingList,
    SettingRow, SettingValue, TextMap, World,
};
use rel_lexer::Text;
use std::alloc::{AllocError, Global};

impl World {
    /// What a look answers. The error is want of memory.
    pub fn look(&self, key: &Key) -> Result<Answer, AllocError>
        ensures shown { IfOk result (λ answer. answer ≡ shown self.now key.now) }
        ensures good { IfOk result IsGoodAnswer }
        ensures ascending { IfOk result HasAscendingNames }
    {
        self.is_sound();
        self.answer(key)
    }

    /// What holds of every world, for a caller that reads none of its fields.
    fn is_sound(&self)
        ensures sound { IsSound self.now }
        ensures maps { HasMaps self.now }
    {
        self.paths.ascends();
        self.packages.ascends();
        self.processes.ascends();
        self.settings.ascends();
    }

    fn answer(&self, key: &Key) -> Result<Answer, AllocError>
        ensures { IfOk result (λ answer. answer ≡ shown self.now key.now) }
    {
        match key {
            Key::Stat(path) => Ok(self.stat(path.as_str())),
            Key::List(path) => self.list(path.as_str()),
            Key::Read(path) => self.read(path.as_str()),
            Key::System => Ok(Answer::System {
                name: self.system.copy()?,
                version: self.version.copy()?,
            }),
            Key::ComputerName => Ok(Answer::Name(self.name.copy()?)),
            Key::Processes => Ok(Answer::Names(names(self.alloc, &self.processes)?)),
            Key::Packages => Ok(Answer::Packages(packages(self.alloc, &self.packages)?)),
            Key::Settings => Ok(Answer::Settings(settings(self.alloc, &self.settings)?)),
        }
    }

    fn stat(&self, path: &str) -> Answer
        ensures { result ≡ stat_of (node_at self.now path.now) }
    {
        if path == "/" {
            return Answer::Folder;
        }
        match self.paths.get(path) {
            None => Answer::Nothing,
            Some(Node::Folder) => Answer::Folder,
            Some(Node::File { content, modified }) => Answer::File {
                size: content.as_slice().len() as i64,
                modified: *modified,
            },
        }
    }

    fn read(&self, path: &str) -> Result<Answer, AllocError>
        ensures { IfOk result (λ answer. answer ≡ read_of (node_at self.now path.now)) }
    {
        if path == "/" {
            return Ok(Answer::Nothing);
        }
        match self.paths.get(path) {
            Some(Node::File { content, .. }) => Ok(Answer::Content(content.copy()?)),
            Some(Node::Folder) => Ok(Answer::Nothing),
            None => Ok(Answer::Nothing),
        }
    }

    fn list(&self, path: &str) -> Result<Answer, AllocError>
        ensures { IfOk result (λ answer.
            answer ≡ (if is_folder self.now path.now then Answer.Entries (entries_in self.now path.now) else Answer.Nothing)) }
    {
        if !self.is_folder(path) {
            return Ok(Answer::Nothing);
        }
        Ok(Answer::Entries(self.entries(path)?))
    }

    /// The entries of a folder, in byte order of their names.
    pub(crate) fn entries(&self, folder: &str) -> Result<EntryList, AllocError>
        ensures { IfOk result (λ entries. entries ≡ entries_in self.now folder.now) }
    {
        let mut entries = Vec::new(self.alloc);
        for (path, node) in self.paths.iter() {
            if let Some(entry) = entry_in(self.alloc, folder, path.as_str(), node)? {
                entries.push(entry)?;
            }
        }
        Ok(EntryList::from_vec(entries))
    }

    /// Whether a folder is at a path.
    pub fn is_folder(&self, path: &str) -> bool
        ensures { result ≡ is_folder self.now path.now }
    {
        if path == "/" {
            return true;
        }
        match self.paths.get(path) {
            Some(Node::Folder) => true,
            Some(Node::File { .. }) => false,
            None => false,
        }
    }

    /// Whether a file is at a path.
    pub fn is_file(&self, path: &str) -> bool
        ensures { result ≡ is_file self.now path.now }
    {
        if path == "/" {
            return false;
        }
        match self.paths.get(path) {
            Some(Node::File { .. }) => true,
            Some(Node::Folder) => false,
            None => false,
        }
    }

    /// Whether the folder in which a path stands is there.
    pub fn has_parent(&self, path: &str) -> bool
        ensures { result ≡ has_parent self.now path.now }
    {
        let parent = parent_path(path);
        parent.is_empty() || self.is_folder(parent)
    }

    /// Whether there is a package of this name.
    pub fn has_package(&self, name: &str) -> bool
        ensures { result ≡ is_some (at name.now self.now.packages) }
    {
        self.packages.get(name).is_some()
    }

    /// Whether there is a process of this name.
    pub fn has_process(&self, name: &str) -> bool
        ensures { result ≡ is_some (at name.now self.now.processes) }
    {
        self.processes.get(name).is_some()
    }

    /// Whether there is a setting of this name.
    pub fn has_setting(&self, name: &str) -> bool
        ensures { result ≡ is_some (at name.now self.now.settings) }
    {
        self.settings.get(name).is_some()
    }

    /// Whether there is a program of this line.
    pub fn has_program(&self, line: &str) -> bool
        ensures { result ≡ is_some (at line.now self.now.programs) }
    {
        self.programs.get(line).is_some()
    }
}

/// The entry for what is at a path, where that is a part in the folder.
fn entry_in(
    alloc: Global,
    folder: &str,
    path: &str,
    node: &Node,
) -> Result<Option<Entry>, AllocError>
    ensures { IfOk result (λ entry. entry ≡ entry_in folder.now (path.now, node.now)) }
{
    let name = last_name(path);
    if !is_part(name) {
        return Ok(None);
    }
    if joined(alloc, folder, name)?.as_str() != path {
        return Ok(None);
    }
    Ok(Some(Entry {
        name: Text::from_str(alloc, name)?,
        folder: node.is_folder(),
    }))
}

fn names(alloc: Global, processes: &TextMap<()>) -> Result<NameList, AllocError>
    ensures { IfOk result (λ names. names ≡ keys_of processes.now) }
{
    let mut names = Vec::new(alloc);
    for (name, _) in processes.iter() {
        names.push(Text::from_str(alloc, name.as_str())?)?;
    }
    Ok(NameList::from_vec(names))
}

fn packages(alloc: Global, packages: &TextMap<Text>) -> Result<PackageList, AllocError>
    ensures { IfOk result (λ rows. rows ≡ map package_row packages.now) }
{
    let mut rows = Vec::new(alloc);
    for (name, version) in packages.iter() {
        rows.push(PackageRow {
            name: Text::from_str(alloc, name.as_str())?,
            version: version.copy()?,
        })?;
    }
    Ok(PackageList::from_vec(rows))
}

fn settings(alloc: Global, settings: &TextMap<SettingValue>) -> Result<SettingList, AllocError>
    ensures { IfOk result (λ rows. rows ≡ map setting_row settings.now) }
{
    let mut rows = Vec::new(alloc);
    for (name, setting) in settings.iter() {
        rows.push(SettingRow {
            name: Text::from_str(alloc, name.as_str())?,
            value: setting.value.copy()?,
            date: setting.date,
        })?;
    }
    Ok(SettingList::from_vec(rows))
}
