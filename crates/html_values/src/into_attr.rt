//! The trait of values with a text as an attribute, and the texts of strings, numbers and colours.

ghost use Rattle.std.specs.{Fmt.{decimal, signed_decimal}, Prelude.{ℕ, List, ◌∷◌, []}, Int.NonZero.{non_zero_i64_get, non_zero_u64_get}};
ghost use Rattle.html_names_core.specs.Texts.{text_view};
ghost use Rattle.html_values_css.specs.Colors.{color_text};
ghost use Rattle.html_values.specs.{AttrTexts.{dir_text}, Attributes.{IsText}};

use crate::text::ascii;
use html_names_core::text_writer::TextWriter;
use html_values_css::{Dir, Rgba, ToCss};
use std::alloc::{AllocError, Global};
use std::num::{NonZeroI64, NonZeroU64};

/// A value that has a text as an attribute. The value alone determines the text.
///
/// A complete implementation for an enum. It imports the variants by a path that begins with the
/// name of the crate that contains them, `tests_surface`:
///
/// ```
/// ghost use Rattle.std.specs.{Fmt.{decimal}, Prelude.{codes}};
/// ghost use Rattle.tests_surface.specs.declared.own.attr.Limit.TheVariants.{Most, Unlimited};
///
/// use html_values::{IntoAttr, NoneValue};
/// use std::alloc::{AllocError, Global};
///
/// /// How many there may be.
/// #[derive(Clone, Copy)]
/// enum Limit {
///     /// At most that many.
///     Most(u64),
///     /// Any number, written `none`.
///     Unlimited,
/// }
///
/// impl IntoAttr for Limit {
///     ghost attr_text = { λ limit. elim limit [ Most n ↦ decimal n | Unlimited ↦ codes "none" ] };
///
///     fn into_attr(&self, alloc: Global) -> Result<String, AllocError> {
///         match self {
///             Limit::Most(count) => count.into_attr(alloc),
///             Limit::Unlimited => NoneValue.into_attr(alloc),
///         }
///     }
/// }
/// ```
pub trait IntoAttr {
    /// The text of a value.
    ghost attr_text: { Self → List ℕ };

    /// Returns the value's text.
    fn into_attr(&self, alloc: Global) -> Result<String, AllocError>
        ensures { IsText result (attr_text self.now) };
}

/// A text as it is.
#[derive(Debug, Drop, PartialEq, Eq)]
pub struct Str(pub String);

impl IntoAttr for Str {
    ghost attr_text = { λ s. text_view s.0 };

    fn into_attr(&self, _alloc: Global) -> Result<String, AllocError> {
        self.0.clone()
    }
}

impl IntoAttr for char {
    ghost attr_text = { λ c. c ∷ [] };

    fn into_attr(&self, alloc: Global) -> Result<String, AllocError> {
        let mut text = TextWriter::new(alloc);
        text.push(*self)?;
        Ok(text.into_string())
    }
}

impl IntoAttr for u64 {
    ghost attr_text = { decimal };

    fn into_attr(&self, alloc: Global) -> Result<String, AllocError> {
        let mut text = TextWriter::new(alloc);
        text.push_decimal(*self)?;
        Ok(text.into_string())
    }
}

impl IntoAttr for NonZeroU64 {
    ghost attr_text = { λ n. decimal (non_zero_u64_get n) };

    fn into_attr(&self, alloc: Global) -> Result<String, AllocError> {
        u64::into_attr(&self.get(), alloc)
    }
}

impl IntoAttr for i64 {
    ghost attr_text = { signed_decimal };

    fn into_attr(&self, alloc: Global) -> Result<String, AllocError> {
        let mut text = TextWriter::new(alloc);
        if *self < 0 {
            text.push('-')?;
        }
        text.push_decimal(self.unsigned_abs())?;
        Ok(text.into_string())
    }
}

impl IntoAttr for NonZeroI64 {
    ghost attr_text = { λ n. signed_decimal (non_zero_i64_get n) };

    fn into_attr(&self, alloc: Global) -> Result<String, AllocError> {
        i64::into_attr(&self.get(), alloc)
    }
}

impl IntoAttr for Dir {
    ghost attr_text = { dir_text };

    fn into_attr(&self, alloc: Global) -> Result<String, AllocError> {
        ascii(
            alloc,
            match self {
                Dir::LTR => "ltr",
                Dir::RTL => "rtl",
                Dir::TTB => "ttb",
                Dir::BTT => "btt",
            },
        )
    }
}

impl IntoAttr for Rgba {
    ghost attr_text = { color_text };

    fn into_attr(&self, alloc: Global) -> Result<String, AllocError> {
        self.to_css(alloc, &mut ())
    }
}
