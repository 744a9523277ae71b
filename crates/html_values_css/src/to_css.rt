//! The trait of values with a css text, and the css of plain texts and of `display`.

ghost use Rattle.std.specs.Prelude.{◌≡◌, ℕ, List, [], IfOk, chars, codes, ◌++◌};
ghost use Rattle.html_names_core.specs.{Displays.{display_text}, Texts.{text_view}};
ghost use Rattle.html_values_css.specs.{Sink.{TakesWarning, Hands}, Writer.{writer_state, Emits}, declared.sink.Warning.{Warning}};

use crate::sink::{Warning, WarningSink, pass_on};
use crate::writer::CssWriter;
use html_names_core::property::Display;
use std::alloc::{AllocError, Global};

/// A value that has a text in css.
///
/// Its law: the value alone determines the text and the warnings; `emit` appends that text and
/// nothing else, and passes those warnings and no others to the writer's sink. A value that warns
/// fails: it has no proper text.
///
/// A complete implementation, which writes two texts:
///
/// ```
/// ghost use Rattle.std.specs.Prelude.{chars, ◌++◌, []};
///
/// use html_values::{CssWriter, ToCss, WarningSink};
/// use std::alloc::AllocError;
///
/// /// A number, which is given as it is written, and its unit.
/// #[derive(Clone, Copy)]
/// struct Dimension<'a> {
///     number: &'a str,
///     unit: &'a str,
/// }
///
/// impl ToCss for Dimension<'_> {
///     ghost text = { λ d. chars d.number.now ++ chars d.unit.now };
///
///     ghost warnings = { λ _. [] };
///
///     fn emit<S: WarningSink>(&self, out: &mut CssWriter<S>) -> Result<(), AllocError> {
///         out.write(self.number)?;
///         out.write(self.unit)
///     }
/// }
/// ```
pub trait ToCss {
    /// The value's text.
    ghost text: { Self → List ℕ };

    /// The warnings of the value, in order; none if the value has a proper text.
    ghost warnings: { Self → List Warning };

    /// Appends the value's text, and passes its warnings to the writer's sink.
    fn emit<S: WarningSink>(&self, out: &mut CssWriter<S>) -> Result<(), AllocError>
        ensures { Emits (TakesWarning S.warnings S.borrow S.emit_gives) result
            (writer_state out.old) (writer_state out.new) (text self.now) (warnings self.now) };

    /// Returns the value's text. Passes its warnings to the sink, in order. If the sink refuses
    /// one, or an allocation fails, the sink has received only the warnings before that, if any.
    fn to_css<S: WarningSink>(&self, alloc: Global, sink: &mut S) -> Result<String, AllocError>
        ensures text { IfOk result (λ css. text_view css ≡ text self.now) }
        ensures given { Hands (TakesWarning S.warnings S.borrow S.emit_gives) result
            sink.old (warnings self.now) sink.new }
    {
        let mut out = CssWriter::new(alloc, Vec::new(alloc));
        self.emit(&mut out)?;
        pass_on(&out.sink, sink)?;
        Ok(out.text)
    }
}

impl ToCss for &str {
    ghost text = { λ s. chars s.now };

    ghost warnings = { λ _. [] };

    fn emit<S: WarningSink>(&self, out: &mut CssWriter<S>) -> Result<(), AllocError> {
        out.write(self)
    }
}

impl ToCss for String {
    ghost text = { text_view };

    ghost warnings = { λ _. [] };

    fn emit<S: WarningSink>(&self, out: &mut CssWriter<S>) -> Result<(), AllocError> {
        out.write(self.as_str())
    }
}

impl ToCss for Display {
    ghost text = { display_text };

    ghost warnings = { λ _. [] };

    fn emit<S: WarningSink>(&self, out: &mut CssWriter<S>) -> Result<(), AllocError> {
        out.write_ascii(self.as_str())
    }
}
