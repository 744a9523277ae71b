//! A single css property: the texts of its name and its value.

ghost use Rattle.std.specs.Prelude.{◌≡◌, IfOk};
ghost use Rattle.html_values_css.specs.Properties.{property_view};

use std::alloc::AllocError;

/// A css property: its name and its value.
#[derive(Debug, Drop, PartialEq, Eq, Hash)]
pub struct Property {
    /// Its name.
    pub name: String,
    /// Its value.
    pub value: String,
}

impl Property {
    /// Creates a property with that name and value.
    pub fn new(name: String, value: String) -> Property
        ensures { result ≡ record { name = name; value = value } }
    {
        Property { name, value }
    }

    /// Returns a copy.
    pub fn try_clone(&self) -> Result<Property, AllocError>
        ensures { IfOk result (λ copy. property_view copy ≡ property_view self.now) }
    {
        Ok(Property {
            name: self.name.clone()?,
            value: self.value.clone()?,
        })
    }
}
