//! The table that numbers tags and attributes, and finds the facts about a tag by its number.

ghost use Rattle.std.specs.Prelude.{◌≡◌, ◌<◌, length, IfErr};
ghost use Rattle.html_names_core.specs.Kinds as kinds;
ghost use Rattle.html_names_core.specs.Displays.{default_display};
ghost use Rattle.html_names_table.specs.NameTables.{Numbers, IsNumbered, no_names, name_at, with_tag, with_attr};

use html_names_core::property::Display;
use html_names_core::{HtmlAttr, HtmlTag, Refused, tag};
use std::alloc::{AllocError, Global};
use std::fmt;
use std::marker::Model;

mod numbered;
mod numbering;
mod own_numbers;

use numbering::Numbering;

/// A table that numbers names. Each tag and each attribute gets the next number, from 0 on, at its
/// first lookup, and keeps it. Tags and attributes are numbered separately.
///
/// In contracts the table is the texts of its tags and of its attributes, in the order of their
/// numbers.
///
/// ```
/// use html_names::{HtmlTag, NameTable, attr, tag};
///
/// let mut names = NameTable::new(rt.alloc());
/// let own = HtmlTag::intern(rt.alloc(), "my-el")?;
/// assert_eq!(rt; names.tag(&tag::br)?, 0);
/// assert_eq!(rt; names.tag(&own)?, 1);
/// assert_eq!(rt; names.insert_tag(own)?, 1);
/// assert_eq!(rt; names.tag(&tag::br)?, 0);
/// assert_eq!(rt; names.attr(&attr::class)?, 0);
/// assert!(rt; names.tags() == 2);
/// assert!(rt; names.is_void(0));
/// assert_eq!(rt; names.tag_at(1).resolve(), "my-el");
/// ```
#[derive(Drop)]
pub struct NameTable {
    tags: Numbering<HtmlTag>,
    attrs: Numbering<HtmlAttr>,
}

impl Model for NameTable {
    ghost use Rattle.html_names_table.specs.NameTables.{NamesView};

    ghost Value = { NamesView };

    ghost view = { λ t. record { tags = t.tags; attrs = t.attrs } };
}

impl NameTable {
    /// Creates a table in which no name has a number. It takes no memory.
    pub fn new(alloc: Global) -> NameTable
        ensures { result ≡ no_names }
    {
        NameTable {
            tags: Numbering::new(alloc),
            attrs: Numbering::new(alloc),
        }
    }

    /// Returns the number of a tag: its own if it has one, otherwise the next.
    ///
    /// If an allocation fails, the table is unchanged. A tag that has a number takes no
    /// memory.
    ///
    /// Indexes a table for a known name. Another name is found in the slot that its hash selects,
    /// or in an ordered map if another took that slot first.
    pub fn tag(&mut self, tag: &HtmlTag) -> Result<usize, AllocError>
        ensures { Numbers result self.old.tags self.new.tags tag.now self.old self.new
            (with_tag self.old tag.now) }
    {
        self.tags.number(tag)
    }

    /// Consumes a tag and returns its number, as `tag` does. Moves a tag without a number into the
    /// table instead of copying it. If an allocation fails, the error holds the tag.
    pub fn insert_tag(&mut self, tag: HtmlTag) -> Result<usize, Refused<HtmlTag>>
        ensures number { Numbers result self.old.tags self.new.tags tag self.old self.new
            (with_tag self.old tag) }
        ensures back { IfErr result (λ refused. refused.back ≡ tag) }
    {
        self.tags.insert(tag)
    }

    /// Returns the number of an attribute: its own if it has one, otherwise the next.
    ///
    /// If an allocation fails, the table is unchanged. An attribute that has a number takes no
    /// memory.
    ///
    /// Indexes a table for a known name. Another name is found in the slot that its hash selects,
    /// or in an ordered map if another took that slot first.
    pub fn attr(&mut self, attr: &HtmlAttr) -> Result<usize, AllocError>
        ensures { Numbers result self.old.attrs self.new.attrs attr.now self.old self.new
            (with_attr self.old attr.now) }
    {
        self.attrs.number(attr)
    }

    /// Consumes an attribute and returns its number, as `attr` does. Moves an attribute without a
    /// number into the table instead of copying it. If an allocation fails, the error holds the
    /// attribute.
    pub fn insert_attr(&mut self, attr: HtmlAttr) -> Result<usize, Refused<HtmlAttr>>
        ensures number { Numbers result self.old.attrs self.new.attrs attr self.old self.new
            (with_attr self.old attr) }
        ensures back { IfErr result (λ refused. refused.back ≡ attr) }
    {
        self.attrs.insert(attr)
    }

    /// Returns how many tags have a number. No two of these tags are equal.
    pub fn tags(&self) -> usize
        ensures count { result ≡ length self.now.tags }
        ensures numbered { IsNumbered self.now.tags }
    {
        self.tags.len()
    }

    /// Returns how many attributes have a number. No two of these attributes are equal.
    pub fn attrs(&self) -> usize
        ensures count { result ≡ length self.now.attrs }
        ensures numbered { IsNumbered self.now.attrs }
    {
        self.attrs.len()
    }

    /// Returns the tag with this number.
    pub fn tag_at(&self, number: usize) -> &HtmlTag
        requires { number < length self.now.tags }
        ensures { result.now ≡ name_at self.now.tags number }
    {
        self.tags.at(number)
    }

    /// Returns the attribute with this number.
    pub fn attr_at(&self, number: usize) -> &HtmlAttr
        requires { number < length self.now.attrs }
        ensures { result.now ≡ name_at self.now.attrs number }
    {
        self.attrs.at(number)
    }

    /// Returns whether the tag with this number names a void element, as `tag::is_void` does.
    pub fn is_void(&self, number: usize) -> bool
        requires { number < length self.now.tags }
        ensures { result ≡ kinds.is_void (name_at self.now.tags number) }
    {
        tag::is_void(self.tags.at(number))
    }

    /// Returns whether the tag with this number names a raw text element, as `tag::is_raw` does.
    pub fn is_raw(&self, number: usize) -> bool
        requires { number < length self.now.tags }
        ensures { result ≡ kinds.is_raw (name_at self.now.tags number) }
    {
        tag::is_raw(self.tags.at(number))
    }

    /// Returns whether the tag with this number names an escapable raw text element, as
    /// `tag::is_escapable_raw` does.
    pub fn is_escapable_raw(&self, number: usize) -> bool
        requires { number < length self.now.tags }
        ensures { result ≡ kinds.is_escapable_raw (name_at self.now.tags number) }
    {
        tag::is_escapable_raw(self.tags.at(number))
    }

    /// Returns whether the tag with this number names a foreign element that is written
    /// self-closing, as `tag::is_foreign_self_closing` does.
    pub fn is_foreign_self_closing(&self, number: usize) -> bool
        requires { number < length self.now.tags }
        ensures { result ≡ kinds.is_foreign_self_closing (name_at self.now.tags number) }
    {
        tag::is_foreign_self_closing(self.tags.at(number))
    }

    /// Returns the default display of the tag with this number, as `Display::default_for` does.
    pub fn default_for(&self, number: usize) -> Option<Display>
        requires { number < length self.now.tags }
        ensures { result ≡ default_display (name_at self.now.tags number) }
    {
        Display::default_for(self.tags.at(number))
    }
}

/// Writes `NameTable`.
impl fmt::Debug for NameTable {
    ghost use Rattle.std.specs.Prelude.{codes, Some};

    ghost debug_output = { λ _. Some (codes "NameTable") };

    fn fmt<W: fmt::Write>(&self, f: &mut fmt::Formatter<W>) -> fmt::Result {
        write!(f, "NameTable")
    }
}
