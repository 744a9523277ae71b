//! Lengths that are sums: of ems and points, and of a ratio of another length with these.

ghost use Rattle.std.specs.Prelude.{[]};
ghost use Rattle.html_values_css.specs.Sums.{length_text, rel_text};

use crate::quantity::{Abs, Em, Ratio};
use crate::sink::WarningSink;
use crate::to_css::ToCss;
use crate::writer::CssWriter;
use std::alloc::AllocError;

/// A length of ems and points. Its css text is their sum.
#[derive(Clone, Copy, Debug, PartialEq, Eq, Hash)]
pub struct Length {
    /// The part relative to the font size.
    pub em: Em,
    /// The absolute part.
    pub abs: Abs,
}

/// A length relative to another: a ratio of it, and a length. Its css text is the sum of the ratio,
/// the ems and the points.
#[derive(Clone, Copy, Debug, PartialEq, Eq, Hash)]
pub struct Rel {
    /// The ratio of the other length.
    pub rel: Ratio,
    /// The length that is added.
    pub abs: Length,
}

impl ToCss for Length {
    ghost text = { λ l. length_text l.em l.abs };

    ghost warnings = { λ _. [] };

    fn emit<S: WarningSink>(&self, out: &mut CssWriter<S>) -> Result<(), AllocError> {
        let mut sum = out.calc();
        sum.sum(&self.em)?;
        sum.sum(&self.abs)?;
        sum.finish()
    }
}

impl ToCss for Rel {
    ghost text = { λ r. rel_text r.rel r.abs.em r.abs.abs };

    ghost warnings = { λ _. [] };

    fn emit<S: WarningSink>(&self, out: &mut CssWriter<S>) -> Result<(), AllocError> {
        let mut sum = out.calc();
        sum.sum(&self.rel)?;
        sum.sum(&self.abs.em)?;
        sum.sum(&self.abs.abs)?;
        sum.finish()
    }
}
