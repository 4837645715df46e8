ghost use Rattle.std.specs.Prelude.{◌≡◌, ◌∷◌, ◌++◌, [], IfOk};

use rel_lexer::Text;
use std::alloc::{AllocError, Global};
use std::marker::Model;

/// A file that is fetched before a script begins.
#[derive(Drop)]
pub struct Prefetch {
    /// The number of its line, from 1 on.
    pub line: u32,
    /// The name that it gets, of 1 to 64 ASCII letters, digits, `-`, `_` and `.`.
    pub name: Text,
    pub sha1: [u8; 20],
    /// In bytes.
    pub size: u64,
    /// One byte or more, without spaces and tabs.
    pub url: Text,
    pub sha256: [u8; 32],
}

impl Prefetch {
    /// The same file once more.
    pub fn copy(&self) -> Result<Prefetch, AllocError>
        ensures { IfOk result (λ prefetch. prefetch ≡ self.now) }
    {
        Ok(Prefetch {
            line: self.line,
            name: self.name.copy()?,
            sha1: self.sha1,
            size: self.size,
            url: self.url.copy()?,
            sha256: self.sha256,
        })
    }
}

/// Files in the order of their lines. Contracts see the list of them.
#[derive(Drop)]
pub struct PrefetchList {
    items: Vec<Prefetch>,
}

impl Model for PrefetchList {
    ghost use Rattle.std.specs.Prelude.{List};
    ghost use Rattle.script_text.specs.declared.prefetch.Prefetch.{Prefetch};

    ghost Value = { List Prefetch };

    ghost view = { λ p. p.items.items };
}

impl PrefetchList {
    pub(crate) fn new(alloc: Global) -> PrefetchList
        ensures { result ≡ [] }
    {
        PrefetchList {
            items: Vec::new(alloc),
        }
    }

    /// Takes no memory.
    pub fn from_vec(prefetches: Vec<Prefetch>) -> PrefetchList
        ensures { result ≡ prefetches.items }
    {
        PrefetchList { items: prefetches }
    }

    /// Takes no memory.
    pub fn into_vec(self) -> Vec<Prefetch>
        ensures { result.items ≡ self }
    {
        self.items
    }

    pub fn as_slice(&self) -> &[Prefetch]
        ensures { result.now ≡ self.now }
    {
        self.items.as_slice()
    }

    pub(crate) fn push(&mut self, prefetch: Prefetch) -> Result<(), AllocError>
        ensures { IfOk result (λ _. self.new ≡ self.old ++ prefetch ∷ []) }
    {
        self.items.push(prefetch)?;
        Ok(())
    }

    /// The same files once more.
    pub fn copy(&self) -> Result<PrefetchList, AllocError>
        ensures { IfOk result (λ prefetches. prefetches ≡ self.now) }
    {
        let mut copies = Vec::new(*self.items.allocator());
        for prefetch in self.items.as_slice() {
            copies.push(prefetch.copy()?)?;
        }
        Ok(PrefetchList::from_vec(copies))
    }
}
