//! The meanings of the numbers that a caller passes.

ghost use Rattle.std.specs.Prelude.{◌≡◌};
ghost use Rattle.typst_html_ffi.specs.CallReplies.{limit_of, page_limit_of, pretty_of, task_of, yes_or_no, wanted_settings, wanted_task};
ghost use Rattle.typst_html_ffi.specs.Fragments.{level_of, wanted_fragment};

use html_flow_convert::ConversionLevel;
use typst_html_run::{Settings, Task};

/// Returns the task and whether pretty text is wanted, or `None` if a number is invalid.
pub(crate) fn wanted_task(kind: u8, layout: u8) -> Option<(Task, bool)>
    ensures { result ≡ wanted_task kind layout }
{
    Some((task_of(kind)?, pretty_of(layout)?))
}

fn task_of(kind: u8) -> Option<Task>
    ensures { result ≡ task_of kind }
{
    match kind {
        0 => Some(Task::Tree),
        1 => Some(Task::Doc),
        _ => None,
    }
}

/// Returns how a document is written, or `None` if a number is invalid.
pub(crate) fn wanted_settings(layout: u8, links: u8, limit: u32) -> Option<Settings>
    ensures { result ≡ wanted_settings layout links limit }
{
    Some(Settings {
        pretty: pretty_of(layout)?,
        links: yes_or_no(links)?,
        limit: limit_of(limit)?,
    })
}

/// Returns the level of a fragment and how deep bodies may be nested in it, or `None` if a number
/// is invalid.
pub(crate) fn wanted_fragment(level: u8, limit: u32) -> Option<(ConversionLevel, usize)>
    ensures { result ≡ wanted_fragment level limit }
{
    Some((level_of(level)?, limit_of(limit)?))
}

fn level_of(level: u8) -> Option<ConversionLevel>
    ensures { result ≡ level_of level }
{
    match level {
        0 => Some(ConversionLevel::Block),
        1 => Some(ConversionLevel::Inline),
        _ => None,
    }
}

fn pretty_of(layout: u8) -> Option<bool>
    ensures { result ≡ pretty_of layout }
{
    yes_or_no(layout)
}

fn yes_or_no(number: u8) -> Option<bool>
    ensures { result ≡ yes_or_no number }
{
    match number {
        0 => Some(false),
        1 => Some(true),
        _ => None,
    }
}

/// Returns how deep the elements of a page may be nested, or `None` if the number is invalid. The
/// limit is lower than that of bodies, since a check recurses at each level and 256 KB of stack
/// have to be enough for any page.
pub(crate) fn page_limit_of(limit: u32) -> Option<usize>
    ensures { result ≡ page_limit_of limit }
{
    match limit {
        1..=1_000 => Some(limit as usize),
        _ => None,
    }
}

pub(crate) fn limit_of(limit: u32) -> Option<usize>
    ensures { result ≡ limit_of limit }
{
    match limit {
        1..=10_000 => Some(limit as usize),
        _ => None,
    }
}
