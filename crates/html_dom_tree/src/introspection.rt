//! Locations, and the tags that mark where a located element starts and ends.

ghost use Rattle.std.specs.Prelude.{◌≡◌, ◌↔◌, IsTrue, IfOk};
ghost use Rattle.html_dom_tree.specs.Views.{tag_view};

use crate::text::{copy_optional_text, same_optional_text};
use std::alloc::AllocError;

/// Identifies an element of the source in the tags where it starts and ends.
#[derive(Clone, Copy, Debug, PartialEq, Eq, PartialOrd, Ord, Hash)]
pub struct Location(pub u64);

/// Marks where in the tree a located element starts or ends. It is not written. Two tags are equal
/// if all their fields are.
#[derive(Debug, Drop)]
pub enum Tag {
    /// The start of the element.
    Start {
        /// The element.
        location: Location,
        /// The label from which an anchor is named.
        label: Option<String>,
        /// The location to which the element links.
        dest: Option<Location>,
    },
    /// The end of the element.
    End {
        /// The element.
        location: Location,
    },
}

impl Tag {
    /// Returns a copy. Fails only if an allocation fails.
    pub fn try_clone(&self) -> Result<Tag, AllocError>
        ensures { IfOk result (λ copy. tag_view copy ≡ tag_view self.now) }
    {
        match self {
            Tag::Start {
                location,
                label,
                dest,
            } => Ok(Tag::Start {
                location: *location,
                label: copy_optional_text(label)?,
                dest: *dest,
            }),
            Tag::End { location } => Ok(Tag::End {
                location: *location,
            }),
        }
    }
}

pub(crate) fn same_tag(a: &Tag, b: &Tag) -> bool
    ensures { IsTrue result ↔ (tag_view a.now ≡ tag_view b.now) }
{
    match a {
        Tag::Start {
            location,
            label,
            dest,
        } => match b {
            Tag::Start {
                location: other,
                label: other_label,
                dest: other_dest,
            } => *location == *other
                && same_optional_text(label, other_label)
                && *dest == *other_dest,
            Tag::End { .. } => false,
        },
        Tag::End { location } => match b {
            Tag::Start { .. } => false,
            Tag::End { location: other } => *location == *other,
        },
    }
}

impl PartialEq for Tag {
    ghost use Rattle.std.specs.Cmp.{partial_equiv_from_equiv};
    ghost use Rattle.html_dom_tree.specs.NodeEqual.{same, same_equiv, tag_discrete};

    ghost eq = { same tag_view tag_discrete };

    ghost laws = { partial_equiv_from_equiv (same_equiv tag_view tag_discrete) };

    fn eq(&self, other: &Tag) -> bool {
        same_tag(self, other)
    }
}

impl Eq for Tag {
    ghost use Rattle.html_dom_tree.specs.NodeEqual.{same_equiv, tag_discrete};

    ghost laws = { same_equiv tag_view tag_discrete };
}
