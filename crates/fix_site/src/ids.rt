ghost use Rattle.std.specs.Prelude.{◌≡◌, IfOk};

use std::alloc::AllocError;
use std::marker::Model;

/// Ids in their order. Contracts see the list of them.
#[derive(Drop)]
pub struct Ids {
    items: Vec<u64>,
}

impl Model for Ids {
    ghost use Rattle.std.specs.Prelude.{List, ℕ};

    ghost Value = { List ℕ };

    ghost view = { λ i. i.items.items };
}

impl Ids {
    /// The list of these ids. It takes no memory.
    pub fn from_vec(ids: Vec<u64>) -> Ids
        ensures { result ≡ ids.items }
    {
        Ids { items: ids }
    }

    /// The ids, to be changed. It takes no memory.
    pub fn into_vec(self) -> Vec<u64>
        ensures { result.items ≡ self }
    {
        self.items
    }

    /// The ids.
    pub fn as_slice(&self) -> &[u64]
        ensures { result.now ≡ self.now }
    {
        self.items.as_slice()
    }

    /// The same ids once more.
    pub fn copy(&self) -> Result<Ids, AllocError>
        ensures { IfOk result (λ ids. ids ≡ self.now) }
    {
        Ok(Ids {
            items: self.items.clone()?,
        })
    }
}
