//! Values whose texts are words.

ghost use Rattle.std.specs.Prelude.{◌≡◌, codes, []};
ghost use Rattle.html_values.specs.AttrTexts.{word_of, horizontal_dir, horizontal_text};

use crate::into_attr::IntoAttr;
use crate::text::{ascii, empty};
use html_values_css::Dir;
use std::alloc::{AllocError, Global};

/// None, written `none`.
#[derive(Clone, Copy, Debug, PartialEq, Eq)]
pub struct NoneValue;

/// None, written as the empty text.
#[derive(Clone, Copy, Debug, PartialEq, Eq)]
pub struct NoneEmpty;

/// None, written `undefined`.
#[derive(Clone, Copy, Debug, PartialEq, Eq)]
pub struct NoneUndefined;

/// The automatic value, written `auto`.
#[derive(Clone, Copy, Debug, PartialEq, Eq)]
pub struct AutoValue;

/// A Boolean, written `true` or `false`.
#[derive(Clone, Copy, Debug, PartialEq, Eq)]
pub struct TrueFalseBool(pub bool);

/// A Boolean, written `yes` or `no`.
#[derive(Clone, Copy, Debug, PartialEq, Eq)]
pub struct YesNoBool(pub bool);

/// A Boolean, written `on` or `off`.
#[derive(Clone, Copy, Debug, PartialEq, Eq)]
pub struct OnOffBool(pub bool);

/// A horizontal direction of writing, written `ltr` or `rtl`.
#[derive(Clone, Copy, Debug, PartialEq, Eq)]
pub enum HorizontalDir {
    /// From left to right.
    LTR,
    /// From right to left.
    RTL,
}

impl HorizontalDir {
    /// Returns the direction of writing.
    pub fn dir(self) -> Dir
        ensures { result ≡ horizontal_dir self }
    {
        match self {
            HorizontalDir::LTR => Dir::LTR,
            HorizontalDir::RTL => Dir::RTL,
        }
    }
}

impl IntoAttr for NoneValue {
    ghost attr_text = { λ _. codes "none" };

    fn into_attr(&self, alloc: Global) -> Result<String, AllocError> {
        ascii(alloc, "none")
    }
}

impl IntoAttr for NoneEmpty {
    ghost attr_text = { λ _. [] };

    fn into_attr(&self, alloc: Global) -> Result<String, AllocError> {
        Ok(empty(alloc))
    }
}

impl IntoAttr for NoneUndefined {
    ghost attr_text = { λ _. codes "undefined" };

    fn into_attr(&self, alloc: Global) -> Result<String, AllocError> {
        ascii(alloc, "undefined")
    }
}

impl IntoAttr for AutoValue {
    ghost attr_text = { λ _. codes "auto" };

    fn into_attr(&self, alloc: Global) -> Result<String, AllocError> {
        ascii(alloc, "auto")
    }
}

impl IntoAttr for TrueFalseBool {
    ghost attr_text = { λ b. word_of (codes "true") (codes "false") b.0 };

    fn into_attr(&self, alloc: Global) -> Result<String, AllocError> {
        ascii(alloc, if self.0 { "true" } else { "false" })
    }
}

impl IntoAttr for YesNoBool {
    ghost attr_text = { λ b. word_of (codes "yes") (codes "no") b.0 };

    fn into_attr(&self, alloc: Global) -> Result<String, AllocError> {
        ascii(alloc, if self.0 { "yes" } else { "no" })
    }
}

impl IntoAttr for OnOffBool {
    ghost attr_text = { λ b. word_of (codes "on") (codes "off") b.0 };

    fn into_attr(&self, alloc: Global) -> Result<String, AllocError> {
        ascii(alloc, if self.0 { "on" } else { "off" })
    }
}

impl IntoAttr for HorizontalDir {
    ghost attr_text = { horizontal_text };

    fn into_attr(&self, alloc: Global) -> Result<String, AllocError> {
        self.dir().into_attr(alloc)
    }
}
