//! Icon sizes and image candidates, written `16x16` and `x.png 480w`.

ghost use Rattle.std.specs.{Int.NonZero.{non_zero_u64_get}, Prelude.{option_map}};
ghost use Rattle.html_names_core.specs.Texts.{text_view};
ghost use Rattle.html_values.specs.AttrTexts.{size_text, candidate_text};

use crate::into_attr::IntoAttr;
use html_names_core::text_writer::TextWriter;
use std::alloc::{AllocError, Global};
use std::num::NonZeroU64;

/// The size of an icon in pixels, written `16x16` (HTML Standard 4.6.7.8, `sizes`).
#[derive(Clone, Copy, Debug, PartialEq, Eq)]
pub struct IconSize {
    /// The width.
    pub width: u64,
    /// The height.
    pub height: u64,
}

/// A source of an image and optionally its width in pixels, written `x.png 480w` (HTML Standard
/// 4.8.4.2.1, image candidate strings).
#[derive(Debug, Drop, PartialEq, Eq)]
pub struct ImageCandidate {
    /// The address of the image.
    pub src: String,
    /// The width.
    pub width: Option<NonZeroU64>,
}

impl IntoAttr for IconSize {
    ghost attr_text = { λ size. size_text size.width size.height };

    fn into_attr(&self, alloc: Global) -> Result<String, AllocError> {
        let mut text = TextWriter::new(alloc);
        text.push_decimal(self.width)?;
        text.push_ascii("x")?;
        text.push_decimal(self.height)?;
        Ok(text.into_string())
    }
}

impl IntoAttr for ImageCandidate {
    ghost attr_text = { λ image. candidate_text (text_view image.src)
        (option_map non_zero_u64_get image.width) };

    fn into_attr(&self, alloc: Global) -> Result<String, AllocError> {
        let mut text = TextWriter::new(alloc);
        text.push_str(self.src.as_str())?;
        if let Some(width) = self.width {
            text.push_ascii(" ")?;
            text.push_decimal(width.get())?;
            text.push_ascii("w")?;
        }
        Ok(text.into_string())
    }
}
