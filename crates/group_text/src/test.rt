ghost use Rattle.std.specs.Prelude.{◌≡◌, IfOk, IsTrue, ◌↔◌};
ghost use Rattle.group_text.specs.Tests.{property_of};

use rel_lexer::Text;
use std::alloc::AllocError;

/// What is asked of a machine's row of a property.
#[derive(Drop)]
pub enum Test {
    /// The property of this name has this text among its values.
    Has(Text, Text),
    /// It has a row without this text.
    Lacks(Text, Text),
    /// It has a row with an error.
    Error(Text),
}

impl Test {
    /// The same test once more. The error is want of memory.
    pub fn copy(&self) -> Result<Test, AllocError>
        ensures { IfOk result (λ test. test ≡ self.now) }
    {
        Ok(match self {
            Test::Has(property, text) => Test::Has(property.copy()?, text.copy()?),
            Test::Lacks(property, text) => Test::Lacks(property.copy()?, text.copy()?),
            Test::Error(property) => Test::Error(property.copy()?),
        })
    }

    /// Whether the other one is the same.
    pub fn is(&self, other: &Test) -> bool
        ensures { IsTrue result ↔ (self.now ≡ other.now) }
    {
        match (self, other) {
            (Test::Has(property, text), Test::Has(other_property, other_text)) => {
                are_same(property, text, other_property, other_text)
            }
            (Test::Lacks(property, text), Test::Lacks(other_property, other_text)) => {
                are_same(property, text, other_property, other_text)
            }
            (Test::Error(property), Test::Error(other_property)) => {
                property.as_str() == other_property.as_str()
            }
            _ => false,
        }
    }

    /// The name of the property that it is about.
    pub fn property(&self) -> &Text
        ensures { result.now ≡ property_of self.now }
    {
        match self {
            Test::Has(property, _) => property,
            Test::Lacks(property, _) => property,
            Test::Error(property) => property,
        }
    }
}

fn are_same(property: &Text, text: &Text, other_property: &Text, other_text: &Text) -> bool
    ensures { IsTrue result ↔ ((property.now ≡ other_property.now) × (text.now ≡ other_text.now)) }
{
    property.as_str() == other_property.as_str() && text.as_str() == other_text.as_str()
}
