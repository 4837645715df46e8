ghost use Rattle.std.specs.Prelude.{not, ◌≡◌, ◌+◌, ◌++◌, ◌≤◌, ◌↔◌, length, find, All, IfOk, OnOk, OnErr, IsTrue, MatchOption, option_copied};
ghost use Rattle.std.specs.Str.{bytes_eq};
ghost use Rattle.group_text.specs.declared.property.Property.{Property};
ghost use Rattle.group_text.specs.Properties.{AreProperties};
ghost use Rattle.group_core.specs.Books.{AddsAnalysis, IsFirstTaken, IsTaken, has_name, new_ones};

use crate::book::{Added, Book};
use group_text::{Analysis, Property};
use std::alloc::{AllocError, Global};

impl Book {
    /// Keeps the properties of an analysis that aren't kept yet.
    pub fn add(&mut self, analysis: &Analysis) -> Added
        requires { AreProperties analysis.now.properties }
        ensures { AddsAnalysis self.old analysis.now result self.new }
    {
        let properties = analysis.properties.as_slice();
        let kept = self.properties.as_slice();
        if let Some(taken) = first_taken(kept, properties) {
            return match taken.name.copy() {
                Ok(name) => Added::Taken(name),
                Err(_) => Added::Memory,
            };
        }
        let new = count_new(kept, properties);
        if new == 0 {
            return Added::Again;
        }
        if new as u64 > self.limit - kept.len() as u64 {
            return Added::Full(self.limit);
        }
        match self.append(properties) {
            Ok(()) => Added::Ok,
            Err(_) => Added::Memory,
        }
    }

    /// Appends those of the properties whose names are new. An error, which is want of memory, changes nothing.
    fn append(&mut self, properties: &[Property]) -> Result<(), AllocError>
        requires good { AreProperties properties.now }
        requires few { length self.old.properties + length (new_ones self.old.properties properties.now) ≤ self.old.limit }
        ensures ok { OnOk result (self.new
            ≡ record self.old { properties = self.old.properties ++ new_ones self.old.properties properties.now }) }
        ensures err { OnErr result (self.new ≡ self.old) }
    {
        let mut new = copies_of_new(self.alloc, self.properties.as_slice(), properties)?;
        self.properties.append(&mut new)
    }
}

/// The first of these properties whose name is that of another one that is kept.
fn first_taken<'a>(kept: &[Property], properties: &'a [Property]) -> Option<&'a Property>
    requires { AreProperties kept.now }
    ensures { MatchOption result (All (λ p. ¬ IsTaken kept.now p) properties.now)
        (λ p. IsFirstTaken kept.now properties.now p.now.name) }
{
    for property in properties {
        if is_taken(kept, property) {
            return Some(property);
        }
    }
    None
}

/// Whether the name of the property is that of another one that is kept.
fn is_taken(kept: &[Property], property: &Property) -> bool
    requires { AreProperties kept.now }
    ensures { IsTrue result ↔ IsTaken kept.now property.now }
{
    match named(kept, property) {
        Some(other) => !other.is(property),
        None => false,
    }
}

/// The kept property of the same name.
fn named<'a>(kept: &'a [Property], property: &Property) -> Option<&'a Property>
    ensures { option_copied result ≡ find (λ (other : Property). bytes_eq other.name property.now.name) kept.now }
{
    kept.iter()
        .find(|other| other.name.as_str() == property.name.as_str())
}

/// Whether no property of the same name is kept.
fn is_new(kept: &[Property], property: &Property) -> bool
    ensures { result ≡ not (has_name kept.now property.now.name) }
{
    !kept
        .iter()
        .any(|other| other.name.as_str() == property.name.as_str())
}

/// How many of these properties have new names.
fn count_new(kept: &[Property], properties: &[Property]) -> usize
    ensures { result ≡ length (new_ones kept.now properties.now) }
{
    let mut count = 0;
    for property in properties {
        if is_new(kept, property) {
            count += 1;
        }
    }
    count
}

/// Copies of those whose names are new. The error is want of memory.
fn copies_of_new(
    alloc: Global,
    kept: &[Property],
    properties: &[Property],
) -> Result<Vec<Property>, AllocError>
    ensures { IfOk result (λ new. new.items ≡ new_ones kept.now properties.now) }
{
    let mut new = Vec::new(alloc);
    for property in properties {
        if is_new(kept, property) {
            new.push(property.copy()?)?;
        }
    }
    Ok(new)
}
