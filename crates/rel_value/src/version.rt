ghost use Rattle.std.specs.Prelude.{◌≡◌, ◌≤◌, ◌<◌, length};
ghost use Rattle.rel_value.specs.Versions.{version_cmp, version_of};

use line_forms::{a_version_is_its_numbers, version_numbers};
use rel_lexer::Text;
use std::cmp::Ordering;
use std::marker::Model;

/// The numbers of a version, one to four. Contracts see the list of them.
#[derive(Drop)]
pub struct Version {
    numbers: [u32; 4],
    count: usize,
}

impl Model for Version {
    ghost use Rattle.std.specs.Prelude.{◌≡◌, List, ℕ, ◌<◌, ◌≤◌, take, drop, replicate, ◌-◌};

    ghost Value = { List ℕ };

    ghost view = { λ v. take v.count v.numbers };

    ghost invariant = { λ v. (0 < v.count) × (v.count ≤ 4) × (drop v.count v.numbers ≡ replicate (4 - v.count) 0) };
}

impl Version {
    /// The same version once more. It takes no memory.
    pub fn copy(&self) -> Version
        ensures { result ≡ self.now }
    {
        Version {
            numbers: self.numbers,
            count: self.count,
        }
    }

    /// Reads one to four numbers of 32 bits joined by `.`; leading zeros are allowed. It takes no memory.
    pub fn parse(text: &Text) -> Option<Version>
        ensures { result ≡ version_of text.now }
    {
        Version::of_str(text.as_str())
    }

    pub(crate) fn of_str(text: &str) -> Option<Version>
        ensures { result ≡ version_of text.now }
    {
        // Proof: a version is read part by part, and `version_of` asks for the pieces of its text.
        a_version_is_its_numbers();
        match version_numbers(text.as_bytes()) {
            Some(numbers) => Some(Version::of_numbers(numbers.as_slice())),
            None => None,
        }
    }

    /// The version of these numbers.
    fn of_numbers(given: &[u32]) -> Version
        requires some { 0 < length given.now }
        requires few { length given.now ≤ 4 }
        ensures { result ≡ given.now }
    {
        let mut numbers = [0; 4];
        numbers[..given.len()].copy_from_slice(given);
        Version {
            numbers,
            count: given.len(),
        }
    }

    /// Number by number; missing ones are 0.
    pub(crate) fn order(&self, other: &Version) -> Ordering
        ensures { result ≡ version_cmp self.now other.now }
    {
        self.numbers.cmp(&other.numbers)
    }

    pub fn as_slice(&self) -> &[u32]
        ensures { result.now ≡ self.now }
    {
        &self.numbers[..self.count]
    }
}
