//! Indents and lines.

ghost use Rattle.std.specs.{Prelude.{◌≡◌, ◌++◌, ◌<◌, ◌≤◌, OnOk, chars}, Str.Lines.{lines}};
ghost use Rattle.typst_html_encode.specs.Layout.{spaces, indent, indent_where, feed_where, by_lines};

use html_names_core::text_writer::TextWriter;
use std::alloc::AllocError;

/// A line feed, and the spaces of `MOST_LEVELS` levels.
const LINE: &str = concat!(
    "\n",
    "                                                                ",
    "                                                                "
);

/// The number of levels that `LINE` has spaces for.
const MOST_LEVELS: usize = 64;

/// Returns the number of levels to write at once: all of them, or those that `LINE` has spaces for.
fn first_levels(level: usize) -> usize
    ensures fits { result ≤ 64 }
    ensures within { result ≤ level }
    ensures moves { 0 < level → 0 < result }
{
    level.min(MOST_LEVELS)
}

fn few_spaces(levels: usize) -> &'static str
    requires { levels ≤ 64 }
    ensures { result.now ≡ spaces levels }
{
    &LINE[1..1 + 2 * levels]
}

fn short_indent(levels: usize) -> &'static str
    requires { levels ≤ 64 }
    ensures { result.now ≡ indent levels }
{
    &LINE[..1 + 2 * levels]
}

#[tactic(auto, using(crate::proofs::Indents::spaces_ascii))]
fn push_spaces(out: &mut TextWriter, level: usize) -> Result<(), AllocError>
    ensures { OnOk result (out.new ≡ out.old ++ spaces level) }
{
    let mut left = level;
    while left > 0 {
        let levels = first_levels(left);
        out.push_ascii(few_spaces(levels))?;
        left -= levels;
    }
    Ok(())
}

/// Appends a line feed and two spaces per level, in one piece up to `MOST_LEVELS` levels.
#[inline(never)]
#[tactic(auto, using(crate::proofs::Indents::indent_ascii))]
pub(crate) fn push_indent(out: &mut TextWriter, level: usize) -> Result<(), AllocError>
    ensures { OnOk result (out.new ≡ out.old ++ indent level) }
{
    if level <= MOST_LEVELS {
        out.push_ascii(short_indent(level))
    } else {
        push_long_indent(out, level)
    }
}

/// Appends a line feed and two spaces per level.
#[inline(never)]
#[tactic(auto, using(crate::proofs::Indents::indent_ascii))]
fn push_long_indent(out: &mut TextWriter, level: usize) -> Result<(), AllocError>
    ensures { OnOk result (out.new ≡ out.old ++ indent level) }
{
    let levels = first_levels(level);
    out.push_ascii(short_indent(levels))?;
    push_spaces(out, level - levels)
}

pub(crate) fn push_indent_if(
    out: &mut TextWriter,
    asked: bool,
    level: usize,
) -> Result<(), AllocError>
    ensures { OnOk result (out.new ≡ out.old ++ indent_where asked level) }
{
    if asked {
        push_indent(out, level)?;
    }
    Ok(())
}

pub(crate) fn push_feed_if(out: &mut TextWriter, asked: bool) -> Result<(), AllocError>
    ensures { OnOk result (out.new ≡ out.old ++ feed_where asked) }
{
    if asked {
        out.push('\n')?;
    }
    Ok(())
}

pub(crate) fn push_lines(
    out: &mut TextWriter,
    text: &str,
    level: usize,
    before_first: bool,
) -> Result<(), AllocError>
    ensures { let texts = lines (chars text.now) in
        OnOk result (out.new ≡ out.old ++ by_lines before_first (indent level) texts) }
{
    let mut indented = before_first;
    for line in text.lines() {
        push_indent_if(out, indented, level)?;
        out.push_str(line)?;
        indented = true;
    }
    Ok(())
}
