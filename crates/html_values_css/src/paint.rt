//! Colours, whose css is hexadecimal, and paints, of which only the solid ones have a css text.

ghost use Rattle.std.specs.Prelude.{◌≡◌, ℕ, [], IfOk, OnOk, ◌++◌, ◌<◌, string_bytes};
ghost use Rattle.html_names_core.specs.Texts.{text_view};
ghost use Rattle.html_values_css.specs.{Colors.{hex_byte, alpha_text}, Sink.{TakesWarning}, Writer.{writer_state, Emits}};

use crate::sink::{Warning, WarningSink};
use crate::to_css::ToCss;
use crate::writer::CssWriter;
use std::alloc::{AllocError, Global};

/// A colour in bytes of red, green, blue and alpha. Alpha 255 is opaque.
///
/// Its css text is `#rrggbb`, followed by `aa` unless it is opaque.
#[derive(Clone, Copy, Debug, PartialEq, Eq, Hash)]
pub struct Rgba {
    /// Red.
    pub r: u8,
    /// Green.
    pub g: u8,
    /// Blue.
    pub b: u8,
    /// Alpha.
    pub a: u8,
}

impl Rgba {
    ghost use Rattle.html_values_css.specs.Colors.{color_text};

    fn hex(self, alloc: Global) -> Result<String, AllocError>
        ensures { IfOk result (λ text. text_view text ≡ color_text self) }
    {
        let mut text = String::new(alloc);
        text.push('#')?;
        push_byte(&mut text, self.r)?;
        push_byte(&mut text, self.g)?;
        push_byte(&mut text, self.b)?;
        push_alpha(&mut text, self.a)?;
        Ok(text)
    }
}

/// Appends the alpha, unless it is opaque.
fn push_alpha(text: &mut String, alpha: u8) -> Result<(), AllocError>
    ensures text { OnOk result (string_bytes text.new ≡ string_bytes text.old ++ alpha_text alpha) }
    ensures fits { alpha < 256 }
{
    if alpha == 255 {
        return Ok(());
    }
    push_byte(text, alpha)
}

fn push_byte(text: &mut String, byte: u8) -> Result<(), AllocError>
    ensures text { OnOk result (string_bytes text.new ≡ string_bytes text.old ++ hex_byte byte) }
    ensures fits { byte < 256 }
{
    write!(text, "{byte:02x}")?;
    Ok(())
}

impl ToCss for Rgba {
    ghost use Rattle.html_values_css.specs.Colors.{color_text};

    ghost text = { color_text };

    ghost warnings = { λ _. [] };

    #[tactic(auto, using(crate::proofs::Emitting::nothing_yet))]
    fn emit<S: WarningSink>(&self, out: &mut CssWriter<S>) -> Result<(), AllocError> {
        let text = self.hex(*out.text.allocator())?;
        out.write(text.as_str())
    }
}

/// A paint: a colour or more.
///
/// The css text of a solid colour is the colour's. Gradients and tilings have none: they fail with
/// their warning.
#[derive(Clone, Copy, Debug, PartialEq, Eq, Hash)]
pub enum Paint {
    /// One colour.
    Solid(Rgba),
    /// A gradient.
    Gradient,
    /// A tiling.
    Tiling,
}

impl ToCss for Paint {
    ghost use Rattle.html_values_css.specs.Paints.{paint_text, paint_warnings, PaintWarns, PaintGives};

    ghost text = { paint_text };

    ghost warnings = { paint_warnings };

    fn emit<S: WarningSink>(&self, out: &mut CssWriter<S>) -> Result<(), AllocError>
        ensures emits { Emits (TakesWarning S.warnings S.borrow S.emit_gives) result
            (writer_state out.old) (writer_state out.new) (paint_text self.now) (paint_warnings self.now) }
        ensures warns { PaintWarns (S.warnings out.old.sink) (S.warnings out.new.sink) self.now }
        ensures gives { PaintGives S.emit_gives out.old.sink out.new.sink result self.now }
    {
        match self {
            Paint::Solid(color) => color.emit(out),
            Paint::Gradient => out.fail(Warning::Gradient),
            Paint::Tiling => out.fail(Warning::Tiling),
        }
    }
}
