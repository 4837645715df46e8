ghost use Rattle.std.specs.Prelude.{◌≡◌, IfOk};
ghost use Rattle.std.specs.Ordering.{nat_cmp};
ghost use Rattle.std.specs.Cmp.Lexicographic.{slice_cmp};
ghost use Rattle.group_core.specs.Fronts.{front_of};

use rel_lexer::Text;
use std::alloc::AllocError;
use std::cmp::Ordering;
use std::marker::Model;

/// How many bytes a front has.
const FRONT: usize = 24;

/// The name of a computer. Its first bytes stand beside it, since a search reads them where they lie: the texts of many names lie far apart.
#[derive(Drop)]
pub(crate) struct ComputerName {
    front: [u8; FRONT],
    text: Text,
}

impl Model for ComputerName {
    ghost use Rattle.std.specs.Prelude.{◌≡◌, List, ℕ};
    ghost use Rattle.group_core.specs.Fronts.{front_of};

    ghost Value = { List ℕ };

    ghost view = { λ n. n.text };

    ghost invariant = { λ n. n.front ≡ front_of n.text };
}

impl ComputerName {
    /// This name once more. The error is want of memory, here and below.
    pub(crate) fn of(name: &Text) -> Result<ComputerName, AllocError>
        ensures { IfOk result (λ made. made ≡ name.now) }
    {
        Ok(ComputerName {
            front: front_of(name.as_str()),
            text: name.copy()?,
        })
    }

    /// The text of the name.
    pub(crate) fn to_text(&self) -> Result<Text, AllocError>
        ensures { IfOk result (λ text. text ≡ self.now) }
    {
        self.text.copy()
    }

    /// The order of the name to this one, of which this is the front, byte by byte.
    #[tactic(auto, using(crate::proofs::FrontLemmas::less_front, crate::proofs::FrontLemmas::greater_front))]
    pub(crate) fn order(&self, front: &[u8; FRONT], name: &str) -> Ordering
        requires { front.now ≡ front_of name.now }
        ensures { result ≡ slice_cmp nat_cmp self.now name.now }
    {
        match self.front.cmp(front) {
            Ordering::Less => Ordering::Less,
            Ordering::Greater => Ordering::Greater,
            Ordering::Equal => self.text.as_str().cmp(name),
        }
    }
}

/// The first bytes of a name, and zeros behind those of a shorter one.
#[tactic(auto, using(crate::proofs::FrontLemmas::front_made))]
pub(crate) fn front_of(name: &str) -> [u8; FRONT]
    ensures { result ≡ front_of name.now }
{
    let bytes = name.as_bytes();
    let count = bytes.len().min(FRONT);
    let mut front = [0; FRONT];
    front[..count].copy_from_slice(&bytes[..count]);
    front
}
