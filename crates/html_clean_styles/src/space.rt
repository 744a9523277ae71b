//! White space in declarations.

ghost use Rattle.std.specs.Prelude.{◌≡◌, ◌++◌, IfOk, OnOk, chars};
ghost use Rattle.html_names_core.specs.Texts.{text_view};
ghost use Rattle.html_clean_styles.specs.Styles.{is_space, spaced, squeezed};

use html_dom_tree::text::split_first;
use html_names_core::text_writer::TextWriter;
use std::alloc::{AllocError, Global};

#[tactic(auto, unfolding(crate::specs::Styles::is_space))]
fn is_space(c: char) -> bool
    ensures { result ≡ is_space c }
{
    matches!(c, '\t' | '\n' | '\u{c}' | '\r' | ' ')
}

/// Appends a character, behind a space if there is a gap before it.
#[tactic(auto, using(std::proofs::Common::append_assoc), unfolding(crate::specs::Styles::spaced))]
fn push_behind(made: &mut TextWriter, gap: bool, c: char) -> Result<(), AllocError>
    ensures { OnOk result (made.new ≡ made.old ++ spaced gap c) }
{
    if !gap {
        made.push(c)?;
        return Ok(());
    }
    made.push(' ')?;
    made.push(c)?;
    Ok(())
}

/// Returns a text without the white space around it, and with one space for each run inside.
pub(crate) fn squeezed(alloc: Global, text: &str) -> Result<String, AllocError>
    ensures { IfOk result (λ made. text_view made ≡ squeezed (chars text.now)) }
{
    let mut made = TextWriter::new(alloc);
    let mut left = text;
    let mut begun = false;
    let mut gap = false;
    while let Some((c, rest)) = split_first(left) {
        left = rest;
        if is_space(c) {
            gap = begun;
            continue;
        }
        push_behind(&mut made, gap, c)?;
        begun = true;
        gap = false;
    }
    Ok(made.into_string())
}
