//! Spans of time, written as duration strings such as `1w 2d`.

ghost use Rattle.std.specs.Prelude.{◌≡◌, ◌++◌, OnOk, codes, IsTrue};
ghost use Rattle.html_names_core.specs.{Names.{is_ascii}, Texts.{text_view}};
ghost use Rattle.html_values.specs.{AttrTexts.{counts_text, count_text, gap_after, texts_with_gap}, Attributes.{IsText}};

use crate::into_attr::IntoAttr;
use crate::text::ascii;
use html_names_core::text_writer::TextWriter;
use std::alloc::{AllocError, Global};

const MINUTE: u64 = 60;

const HOUR: u64 = 60 * MINUTE;

const DAY: u64 = 24 * HOUR;

const WEEK: u64 = 7 * DAY;

/// A span of time in whole seconds.
///
/// Its text has weeks, days, hours, minutes and seconds, each above zero, as in `1w 2d`, or is `0s`
/// if there are none (HTML Standard 2.3.5, duration strings).
#[derive(Clone, Copy, Debug, PartialEq, Eq)]
pub struct Duration(pub u64);

/// Appends a space, unless the text is empty.
fn push_gap(text: &mut TextWriter) -> Result<(), AllocError>
    ensures { OnOk result (text.new ≡ gap_after text.old) }
{
    match text.as_str().chars().next() {
        None => Ok(()),
        Some(_) => text.push(' '),
    }
}

/// Appends a count with its unit, after a space unless it is the first, if it is not zero.
fn push_count(text: &mut TextWriter, count: u64, unit: &str) -> Result<(), AllocError>
    requires { IsTrue (is_ascii unit.now) }
    ensures { OnOk result
        (text.new ≡ texts_with_gap text.old (count_text count unit.now)) }
{
    if count == 0 {
        return Ok(());
    }
    push_gap(text)?;
    text.push_decimal(count)?;
    text.push_ascii(unit)
}

/// Returns the text of the counts that are above zero.
fn counts(alloc: Global, seconds: u64) -> Result<String, AllocError>
    ensures { IsText result (counts_text seconds) }
{
    let mut text = TextWriter::new(alloc);
    push_count(&mut text, seconds / WEEK, "w")?;
    push_count(&mut text, seconds / DAY % 7, "d")?;
    push_count(&mut text, seconds / HOUR % 24, "h")?;
    push_count(&mut text, seconds / MINUTE % 60, "m")?;
    push_count(&mut text, seconds % 60, "s")?;
    Ok(text.into_string())
}

impl IntoAttr for Duration {
    ghost use Rattle.html_values.specs.AttrTexts.{duration_text};

    ghost attr_text = { λ d. duration_text d.0 };

    fn into_attr(&self, alloc: Global) -> Result<String, AllocError> {
        if self.0 == 0 {
            return ascii(alloc, "0s");
        }
        counts(alloc, self.0)
    }
}
