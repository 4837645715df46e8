ghost use Rattle.std.specs.Prelude.{◌≡◌, ◌++◌, ◌∷◌, [], ◌<◌, ◌≤◌, ℕ, List, length, map, All, MatchOption, IsTrue, ◌↔◌};
ghost use Rattle.std.specs.Char.{is_ascii_digit};
ghost use Rattle.std.specs.List.{AllPass};
ghost use Rattle.std.specs.Str.Parse.{digits_value};
ghost use Rattle.line_forms.specs.Reads.{Reads, ReadsText};
ghost use Rattle.line_forms.specs.Versions.{IsVersionNumber, IsVersionOf, IsVersion};
ghost use Rattle.line_forms.specs.Cuts.{pieces};

use crate::cut::cut_at;
use std::marker::Model;

/// The most numbers of a version.
const MOST_NUMBERS: usize = 4;

/// The numbers of a version, from the left, one to four. Contracts see the list of them.
#[derive(Drop)]
pub struct VersionNumbers {
    numbers: [u32; 4],
    count: usize,
}

impl Model for VersionNumbers {
    ghost use Rattle.std.specs.Prelude.{List, ℕ, ◌≤◌, take};

    ghost Value = { List ℕ };

    ghost view = { λ v. take v.count v.numbers };

    ghost invariant = { λ v. v.count ≤ 4 };
}

impl VersionNumbers {
    fn none() -> VersionNumbers
        ensures { result ≡ [] }
    {
        VersionNumbers {
            numbers: [0; 4],
            count: 0,
        }
    }

    /// These and one more at the end, where they are fewer than four.
    fn with(mut self, number: u32) -> Option<VersionNumbers>
        ensures { MatchOption result (length self ≡ 4)
            (λ more. (length self < 4) × (more ≡ self ++ number ∷ [])) }
    {
        if self.count == MOST_NUMBERS {
            return None;
        }
        self.numbers[self.count] = number;
        self.count += 1;
        Some(self)
    }

    pub fn as_slice(&self) -> &[u32]
        ensures { result.now ≡ self.now }
    {
        &self.numbers[..self.count]
    }
}

/// Reads a version, one to four numbers of 32 bits joined by `.`, as a text. Leading zeros are allowed in each number. A
/// version is kept and written as it is.
pub fn read_version(text: &[u8]) -> Option<&str>
    ensures { ReadsText IsVersion text.now result }
{
    let Some(_) = version_numbers(text) else {
        return None;
    };
    let Ok(version) = str::from_utf8(text) else {
        return None;
    };
    Some(version)
}

/// The numbers of a version.
pub fn version_numbers(text: &[u8]) -> Option<VersionNumbers>
    ensures { Reads (IsVersionOf text.now) result }
{
    let mut numbers = VersionNumbers::none();
    let mut left = text;
    while let Some(cut) = cut_at(left, b'.') {
        numbers = numbers.with(version_number(cut.first)?)?;
        left = cut.rest;
    }
    numbers.with(version_number(left)?)
}

/// The numbers of a version are those of the pieces of its text between the dots.
pub fn a_version_is_its_numbers()
    ensures { (text numbers : List ℕ) → IsVersionOf text numbers ↔ ((length (pieces 46 text) ≤ 4)
        × All IsVersionNumber (pieces 46 text) × (numbers ≡ map (digits_value 10) (pieces 46 text))) }
{}

/// Reads one number of a version.
fn version_number(digits: &[u8]) -> Option<u32>
    ensures { MatchOption result (¬ IsVersionNumber digits.now)
        (λ number. IsVersionNumber digits.now × (number ≡ digits_value 10 digits.now)) }
{
    if !are_digits(digits) {
        return None;
    }
    let Ok(text) = str::from_utf8(digits) else {
        return None;
    };
    let Ok(number) = text.parse::<u32>() else {
        return None;
    };
    Some(number)
}

fn are_digits(text: &[u8]) -> bool
    ensures { IsTrue result ↔ AllPass is_ascii_digit text.now }
{
    text.iter().all(|byte| byte.is_ascii_digit())
}
