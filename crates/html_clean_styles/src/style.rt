//! The value of a `style` attribute.

ghost use Rattle.std.specs.Prelude.{◌≡◌, ◌↔◌, [], IfOk, IsTrue, OnOk, chars};
ghost use Rattle.html_names_core.specs.Texts.{text_view, texts_view};
ghost use Rattle.html_clean_styles.specs.Styles.{clean_style, joined};

use crate::cut::cut;
use crate::declaration::declaration;
use html_dom_tree::text::split_first;
use html_names_core::text_writer::TextWriter;
use std::alloc::{AllocError, Global};

fn is_empty(text: &str) -> bool
    ensures { IsTrue result ↔ (chars text.now ≡ []) }
{
    match split_first(text) {
        None => true,
        Some(_) => false,
    }
}

/// Appends declarations to others.
fn join(made: &mut TextWriter, more: &str) -> Result<(), AllocError>
    ensures { OnOk result (made.new ≡ joined made.old (chars more.now)) }
{
    if is_empty(more) {
        return Ok(());
    }
    if is_empty(made.as_str()) {
        made.push_str(more)?;
        return Ok(());
    }
    made.push_ascii("; ")?;
    made.push_str(more)?;
    Ok(())
}

/// Returns what stays of the value of a `style` attribute: the declarations of these properties
/// whose values can neither load nor run anything, in one form, or the empty text if none does.
///
/// The text is cut at each `;`. In each piece, the name is what stands before the first `:`, without
/// white space around it and in small ASCII letters, and the value is what stands behind it, without
/// white space around it and with one space for each run inside. A declaration stays if `properties`
/// contain its name, and its value is not empty and holds only ASCII letters, digits, `#`, `%`, `,`,
/// `.`, `-`, spaces, and calls of `rgb`, `rgba`, `hsl`, `hsla` and `calc`, in any ASCII case, with
/// balanced parentheses. So it holds no URL, quote, escape, comment, `!important` or other function.
/// What stays is `name: value`, joined by `; `. Fails only if an allocation fails.
///
/// If the names of properties consist of small letters and `-`, what stays is printable ASCII, and
/// does not change if it is cleaned once more ([`laws`](crate::laws)).
///
/// ```
/// use html_clean::clean_style;
///
/// let alloc = rt.alloc();
/// let properties = vec![in alloc; String::from_str(alloc, "color")?]?;
/// let style = "COLOR :  RGB(1, 2,  3);; color: url(a); position: fixed";
/// assert_eq!(rt; clean_style(alloc, &properties, style)?.as_str(), "color: RGB(1, 2, 3)");
/// ```
pub fn clean_style(alloc: Global, properties: &[String], style: &str) -> Result<String, AllocError>
    ensures { IfOk result (λ made.
        text_view made ≡ clean_style (texts_view properties.now) (chars style.now)) }
{
    let mut made = TextWriter::new(alloc);
    let mut left = style;
    while let Some((piece, rest)) = cut(left, ';') {
        let written = declaration(alloc, properties, piece)?;
        join(&mut made, written.as_str())?;
        left = rest;
    }
    let last = declaration(alloc, properties, left)?;
    join(&mut made, last.as_str())?;
    Ok(made.into_string())
}
