//! The display of css properties as the text of a `style` attribute.

ghost use Rattle.std.specs.Prelude.{◌≡◌};

use crate::property::Property;
use std::fmt;

/// Properties as the text of a `style` attribute: `name: value`, joined by `; `.
///
/// `Display` writes the text.
#[derive(Clone, Copy)]
pub struct Inline<'a>(pub(crate) &'a [Property]);

impl fmt::Display for Inline<'_> {
    ghost use Rattle.std.specs.Prelude.{Some};
    ghost use lib.Utf8.{encodes};
    ghost use Rattle.html_values_css.specs.Properties.{list_view, inline_text};

    ghost output = { λ p. Some (encodes (inline_text (list_view p.0.now))) };

    fn fmt<W: fmt::Write>(&self, f: &mut fmt::Formatter<W>) -> fmt::Result {
        let Some((first, others)) = self.0.split_first() else {
            return Ok(());
        };
        f.write_str(first.name.as_str())?;
        f.write_str(": ")?;
        f.write_str(first.value.as_str())?;
        for property in others {
            f.write_str("; ")?;
            f.write_str(property.name.as_str())?;
            f.write_str(": ")?;
            f.write_str(property.value.as_str())?;
        }
        Ok(())
    }
}
