//! Css properties as a map from names to values, in the order of the names.

ghost use Rattle.std.specs.Prelude.{◌≡◌, ◌↔◌, [], IsTrue, chars, OnOk, OnErr, IfOk, IfErr};
ghost use Rattle.html_names_core.specs.Texts.{text_view};
ghost use Rattle.html_values_css.specs.Properties.{list_view, IsListed, with_property, without, inline_text};
ghost use lib.Utf8.{encodes};

use crate::inline::Inline;
use crate::property::Property;
use crate::property_list::PropertyList;
use html_names_core::Refused;
use std::alloc::{AllocError, Global};
use std::fmt;
use std::hash::{Hash, Hasher};
use std::marker::Model;

/// Css properties, sorted by the bytes of their names. No name occurs twice.
///
/// In contracts it is the list of names and values.
///
/// ```
/// use html_values::Properties;
///
/// let alloc = rt.alloc();
/// let mut properties = Properties::new(alloc);
/// properties.push("width", String::from_str(alloc, "1pt")?)?;
/// properties.push("color", String::from_str(alloc, "red")?)?;
/// properties.push("width", String::from_str(alloc, "2pt")?)?;
/// let style = properties.to_inline().to_string(alloc)?;
/// assert_eq!(rt; style.as_str(), "color: red; width: 2pt");
/// ```
#[derive(Drop)]
pub struct Properties {
    list: PropertyList,
    alloc: Global,
}

impl Model for Properties {
    ghost use Rattle.std.specs.Prelude.{List};
    ghost use Rattle.html_names_core.specs.Texts.{TextPair};
    ghost use Rattle.html_values_css.specs.Properties.{list_view, items_of, IsListed};

    ghost Value = { List TextPair };

    ghost view = { λ p. list_view (items_of p.list) };

    ghost invariant = { λ p. IsListed (list_view (items_of p.list)) };
}

impl Properties {
    /// Creates an empty list of properties.
    pub fn new(alloc: Global) -> Properties
        ensures { result ≡ [] }
    {
        Properties {
            list: PropertyList::None,
            alloc,
        }
    }

    /// Creates an empty list with room for that many properties. Fails only if an allocation fails.
    ///
    /// A single property needs no room of its own, and a growing list allocates room for four at
    /// once.
    pub fn with_capacity(alloc: Global, capacity: usize) -> Result<Properties, AllocError>
        ensures { IfOk result (λ properties. properties ≡ []) }
    {
        Ok(Properties {
            list: PropertyList::with_room(alloc, capacity)?,
            alloc,
        })
    }

    /// Sets the value of a name, replacing an earlier one. If an allocation fails, the properties
    /// are unchanged and the error holds the value.
    pub fn push(&mut self, name: &str, value: String) -> Result<(), Refused<String>>
        ensures ok { OnOk result (self.new
            ≡ with_property self.old (chars name.now) (text_view value)) }
        ensures kept { OnErr result (self.new ≡ self.old) }
        ensures back { IfErr result (λ refused. refused.back ≡ value) }
    {
        let alloc = self.alloc;
        self.list.put(alloc, name, value)
    }

    /// Removes a name and its value. Allocates nothing.
    pub fn remove(&mut self, name: &str)
        ensures { self.new ≡ without self.old (chars name.now) }
    {
        self.list.take_out(name);
    }

    /// Sets the value of a name. If an allocation fails, the error holds properties and value.
    pub fn with(
        mut self,
        name: &str,
        value: String,
    ) -> Result<Properties, Refused<(Properties, String)>>
        ensures ok { IfOk result (λ properties. properties ≡ with_property self (chars name.now)
            (text_view value)) }
        ensures back { IfErr result (λ refused.
            (refused.back.0 ≡ self) × (refused.back.1 ≡ value)) }
    {
        match self.push(name, value) {
            Ok(()) => Ok(self),
            Err(Refused { back }) => Err(Refused { back: (self, back) }),
        }
    }

    pub(crate) fn allocator(&self) -> Global {
        self.alloc
    }

    /// Returns the properties in the order of their names.
    pub fn as_slice(&self) -> &[Property]
        ensures all { list_view result.now ≡ self.now }
        ensures listed { IsListed self.now }
    {
        self.list.as_slice()
    }

    /// Returns the properties as the text of a `style` attribute.
    pub fn to_inline(&self) -> Inline<'_>
        ensures shown { list_view result.0.now ≡ self.now }
        ensures characters { chars (encodes (inline_text self.now)) ≡ inline_text self.now }
    {
        Inline(self.as_slice())
    }

    /// Returns a copy.
    pub fn try_clone(&self) -> Result<Properties, AllocError>
        ensures { IfOk result (λ copy. copy ≡ self.now) }
    {
        let alloc = self.alloc;
        Ok(Properties {
            list: self.list.try_clone(alloc)?,
            alloc,
        })
    }
}

impl fmt::Debug for Properties {
    fn fmt<W: fmt::Write>(&self, f: &mut fmt::Formatter<W>) -> fmt::Result {
        f.debug_struct("Properties")
            .field("list", &self.as_slice())
            .finish()
    }
}

impl PartialEq for Properties {
    ghost use Rattle.std.specs.Cmp.{partial_equiv_from_equiv};
    ghost use Rattle.html_names_core.specs.Equal.{same, same_equiv, pairs_discrete};

    ghost eq = { same (λ p. p) pairs_discrete };

    ghost laws = { partial_equiv_from_equiv (same_equiv (λ p. p) pairs_discrete) };

    fn eq(&self, other: &Properties) -> bool {
        same_list(self.as_slice(), other.as_slice())
    }
}

impl Eq for Properties {
    ghost use Rattle.html_names_core.specs.Equal.{same_equiv, pairs_discrete};

    ghost laws = { same_equiv (λ p. p) pairs_discrete };
}

impl Hash for Properties {
    ghost use Rattle.html_names_core.specs.Hashes.{pairs_writes};
    ghost use Rattle.html_values_css.specs.Hashes.{equal_fed};

    ghost hash_input = { λ p. pairs_writes p };

    ghost respects_eq = { equal_fed };

    fn hash<H: Hasher>(&self, state: &mut H) {
        self.as_slice().hash(state);
    }
}

fn same_list(a: &[Property], b: &[Property]) -> bool
    ensures { IsTrue result ↔ (list_view a.now ≡ list_view b.now) }
{
    *a == *b
}
