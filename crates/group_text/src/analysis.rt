ghost use Rattle.std.specs.Prelude.{◌≡◌, IfOk};

use crate::property::Property;
use std::alloc::AllocError;
use std::marker::Model;

/// Properties in their order. Contracts see the list of them.
#[derive(Drop)]
pub struct Properties {
    items: Vec<Property>,
}

impl Model for Properties {
    ghost use Rattle.std.specs.Prelude.{List};
    ghost use Rattle.group_text.specs.declared.property.Property.{Property};

    ghost Value = { List Property };

    ghost view = { λ p. p.items.items };
}

impl Properties {
    /// The list of these properties. It takes no memory.
    pub fn from_vec(properties: Vec<Property>) -> Properties
        ensures { result ≡ properties.items }
    {
        Properties { items: properties }
    }

    /// The properties, to be changed. It takes no memory.
    pub fn into_vec(self) -> Vec<Property>
        ensures { result.items ≡ self }
    {
        self.items
    }

    /// The properties.
    pub fn as_slice(&self) -> &[Property]
        ensures { result.now ≡ self.now }
    {
        self.items.as_slice()
    }

    /// The same properties once more. The error is want of memory, here and below.
    pub fn copy(&self) -> Result<Properties, AllocError>
        ensures { IfOk result (λ properties. properties ≡ self.now) }
    {
        let mut copies = Vec::new(*self.items.allocator());
        for property in self.items.as_slice() {
            copies.push(property.copy()?)?;
        }
        Ok(Properties::from_vec(copies))
    }
}

/// What is to be measured on every machine.
#[derive(Drop)]
pub struct Analysis {
    /// Of distinct names.
    pub properties: Properties,
}

impl Analysis {
    /// The same analysis once more.
    pub fn copy(&self) -> Result<Analysis, AllocError>
        ensures { IfOk result (λ analysis. analysis ≡ self.now) }
    {
        Ok(Analysis {
            properties: self.properties.copy()?,
        })
    }
}
