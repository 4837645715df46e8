ghost use Rattle.std.specs.Prelude.{◌≡◌, [], ◌∷◌, ◌++◌};

use crate::chain::Chain;
use std::marker::Model;
use std::mem;
use std::snapshot::Snapshot;

/// A list that only clauses see. It has no bytes, so that it grows where no memory may be taken.
#[derive(Drop)]
pub struct Unseen<T> {
    chain: Snapshot<Chain<T>>,
}

impl<T> Model for Unseen<T> {
    ghost use Rattle.std.specs.Prelude.{List};
    ghost use Rattle.bf_machine.specs.Chains.{elements_of};

    ghost Value = { List T };

    ghost view = { λ u. elements_of u.chain.value };
}

impl<T> Unseen<T> {
    /// No element.
    pub fn new() -> Unseen<T>
        ensures { result ≡ [] }
    {
        Unseen {
            chain: Snapshot::of(&Chain::Nothing),
        }
    }

    /// One more, at the end.
    pub fn push(&mut self, element: &T)
        ensures { self.new ≡ self.old ++ element.now ∷ [] }
    {
        let before = mem::replace(&mut self.chain, Snapshot::of(&Chain::Nothing));
        self.chain = Snapshot::of(&Chain::Behind(before, Snapshot::of(element)));
    }
}
