ghost use Rattle.std.specs.Prelude.{◌≡◌, [], OnOk, OnErr, IfOk};
ghost use Rattle.std.specs.Option.{option_copied};
ghost use Rattle.bf_world.specs.Maps.{at, put, without, by_bytes, IsMap};

use crate::copied::Copied;
use std::alloc::{AllocError, Global};
use std::collections::BTreeMap;
use std::collections::btree_map::Iter;
use std::marker::Model;

/// A map from texts, in the byte order of its keys. Contracts see the list of its entries.
#[derive(Drop)]
pub struct TextMap<V> {
    map: BTreeMap<String, V>,
}

impl<V> Model for TextMap<V> {
    ghost use Rattle.std.specs.Prelude.{List, ℕ};
    ghost use Rattle.bf_world.specs.Maps.{by_bytes};

    ghost Value = { List (List ℕ × V) };

    ghost view = { λ m. by_bytes m.map.entries };
}

impl<V: Drop> TextMap<V> {
    /// No entries.
    pub fn new(alloc: Global) -> TextMap<V>
        ensures { result ≡ [] }
    {
        TextMap {
            map: BTreeMap::new(alloc),
        }
    }

    /// The value at the key.
    pub fn get(&self, key: &str) -> Option<&V>
        ensures { option_copied result ≡ at key.now self.now }
    {
        self.map.get(key)
    }

    /// The entries, in the byte order of the keys.
    pub fn iter(&self) -> Iter<'_, String, V>
        ensures entries { by_bytes result ≡ self.now }
        ensures ordered { IsMap self.now }
    {
        self.map.iter()
    }

    /// The keys ascend, for a caller that goes through none of them.
    pub(crate) fn ascends(&self)
        ensures { IsMap self.now }
    {
        let _ = self.iter();
    }

    /// Sets the value at the key. The error is want of memory, and then nothing is changed.
    pub fn put(&mut self, alloc: Global, key: &str, value: V) -> Result<(), AllocError>
        ensures ok { OnOk result (self.new ≡ put key.now value self.old) }
        ensures err { OnErr result (self.new ≡ self.old) }
    {
        let key = String::from_str(alloc, key)?;
        match self.map.insert(key, value) {
            Ok(_) => Ok(()),
            Err(_) => Err(AllocError),
        }
    }

    /// Takes the key out.
    pub fn remove(&mut self, key: &str) -> Option<V>
        ensures value { result ≡ at key.now self.old }
        ensures entries { self.new ≡ without key.now self.old }
    {
        self.map.remove(key)
    }
}

impl<V: Copied + Drop> TextMap<V> {
    /// The same entries once more. The error is want of memory.
    pub(crate) fn copy(&self, alloc: Global) -> Result<TextMap<V>, AllocError>
        ensures { IfOk result (λ copies. copies ≡ self.now) }
    {
        let mut copies = TextMap::new(alloc);
        for (key, value) in self.iter() {
            copies.put(alloc, key.as_str(), value.copied()?)?;
        }
        Ok(copies)
    }
}
