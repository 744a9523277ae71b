//! The label that a `meta` declares (HTML Standard 13.2.3.2).

ghost use Rattle.std.specs.Prelude.{◌≡◌};
ghost use Rattle.html_page_encoding.specs.Prescan as prescan;
ghost use Rattle.html_page_encoding.specs.Views.{meta_view, part_view, parts_view};

use crate::class::{Class, split};
use crate::content::content_label;
use crate::meta::Meta;
use crate::part::Part;
use crate::word::is_word;

/// Returns a label without white space around it, if there is more.
pub(crate) fn stripped<'a>(label: Part<'a>) -> Option<Part<'a>>
    ensures { parts_view result ≡ prescan.stripped (part_view label.entry) }
{
    let (space, from) = split(Class::Space, label.text);
    let text = from.trim_ascii_end();
    if text.is_empty() {
        return None;
    }
    let left = label.left.saturating_sub(space.len());
    Some(Part { text, left })
}

/// Returns a part of a part with its place among the scanned bytes.
pub(crate) fn part_in<'a>(whole: Part<'a>, part: Part<'a>) -> Part<'a>
    ensures { part_view result ≡ prescan.part_in (part_view whole.entry) (part_view part.entry) }
{
    let before = whole.text.len().saturating_sub(part.left);
    let left = whole.left.saturating_sub(before);
    Part { left, ..part }
}

fn label_of_content<'a>(content: Part<'a>) -> Option<Part<'a>>
    ensures { parts_view result ≡ prescan.label_of_content (part_view content.entry) }
{
    let label = content_label(content.text)?;
    stripped(part_in(content, label))
}

fn is_pragma(pragma: Part<'_>) -> bool
    ensures { result ≡ prescan.is_pragma (part_view pragma.entry) }
{
    is_word("content-type", pragma.text)
}

fn pragma_label<'a>(pragma: Option<Part<'a>>, content: Option<Part<'a>>) -> Option<Part<'a>>
    ensures { parts_view result
        ≡ prescan.pragma_label (parts_view pragma.entry) (parts_view content.entry) }
{
    if !is_pragma(pragma?) {
        return None;
    }
    label_of_content(content?)
}

/// Returns the label that a `meta` declares.
#[tactic(auto, unfolding(crate::specs::Prescan::meta_label))]
pub(crate) fn meta_label<'a>(meta: Meta<'a>) -> Option<Part<'a>>
    ensures { parts_view result ≡ prescan.meta_label (meta_view meta.entry) }
{
    match meta.charset {
        Some(charset) => stripped(charset),
        None => pragma_label(meta.pragma, meta.content),
    }
}
