//! Cleaning a text.

ghost use Rattle.std.specs.Prelude.{◌≤◌, chars};
ghost use Rattle.html_clean_policy.specs.PolicyViews.{policy_view};
ghost use Rattle.html_clean.specs.Cleanings.{GivesCleanText, GivesCleaned};

use html_clean_nodes::clean_nodes;
use html_clean_policy::Policy;
use html_dom_tree::HtmlNode;
use html_page_read::{PageFault, PageNotes, read_any_fragment};
use std::alloc::Global;
use typst_html_encode::html_fragment;

/// What stays of a foreign fragment.
#[derive(Debug, Drop)]
pub struct Cleaned {
    /// The nodes that stay. [`html_fragment`] writes them.
    pub nodes: Vec<HtmlNode>,
    /// The errors in the fragment, from which reading recovered.
    pub notes: PageNotes,
}

/// Reads a foreign fragment as browsers do ([`read_any_fragment`]), and returns what stays of its nodes
/// by a policy ([`clean_nodes`]).
///
/// What stays can be put where flow content may stand, in a `body` or `div`, with no `p`, `a`, `nobr`,
/// `button`, `form`, heading, `select`, ruby or part of a table open around it. There its text
/// ([`html_fragment`]) is read as these nodes: HTML can hold each character, the policy allows each
/// element, attribute, URL and declaration of css, and browsers leave each node where it is. Cleaning
/// the nodes once more changes nothing (laws of `html_clean_laws`).
///
/// `limit` is from 1 to 10,000 and bounds the depth of elements as they are read; of an element that is
/// deeper only the content stays. Browsers leave no element where it is that has more than 512 around
/// it, so more than that keeps no further elements.
///
/// # Errors
///
/// [`PageFault::Refused`] with
/// [`PageRefusal::TooManyCopies`](html_page_stack::PageRefusal::TooManyCopies) and its place, for a text
/// whose formatting elements a browser would make again too often; no other text fails.
///
/// ```
/// use html_clean::{Policy, clean};
///
/// let alloc = rt.alloc();
/// let text = "<p onclick=go()>Low <b>tide</i><script>go()</script><a href='javascript:go()'>now</a>";
/// let cleaned = clean(alloc, text, &Policy::inline(alloc)?, 512)?;
/// assert_eq!(rt; cleaned.nodes.len(), 3); // `Low `, `b`, and a line feed where the `p` was
/// ```
pub fn clean(alloc: Global, text: &str, policy: &Policy, limit: usize) -> Result<Cleaned, PageFault>
    requires some_limit { 1 ≤ limit }
    requires low_limit { limit ≤ 10000 }
    ensures { GivesCleaned result (policy_view policy.now) limit (chars text.now) }
{
    let (nodes, notes) = read_any_fragment(alloc, text, limit)?;
    let nodes = clean_nodes(alloc, &nodes, policy)?;
    Ok(Cleaned { nodes, notes })
}

/// Returns the text of what stays of a foreign fragment, as [`clean`] cleans it. It can be written into
/// a page as it is.
///
/// # Errors
///
/// Those of [`clean`].
///
/// ```
/// use html_clean::{Policy, clean_text};
///
/// let alloc = rt.alloc();
/// let comment = "Low <b>tide<script>go()</script></b> & <a href=' java&#10;script:go()'>high</a>";
/// let text = clean_text(alloc, comment, &Policy::inline(alloc)?, 512)?;
/// assert_eq!(rt; text.as_str(), "Low <b>tide</b> &amp; <a>high</a>");
/// ```
pub fn clean_text(
    alloc: Global,
    text: &str,
    policy: &Policy,
    limit: usize,
) -> Result<String, PageFault>
    requires some_limit { 1 ≤ limit }
    requires low_limit { limit ≤ 10000 }
    ensures { GivesCleanText result (policy_view policy.now) limit (chars text.now) }
{
    let cleaned = clean(alloc, text, policy, limit)?;
    match html_fragment(alloc, &cleaned.nodes, &()) {
        Ok(text) => Ok(text),
        // What stays has no fault of writing, so memory ran out.
        Err(_) => Err(PageFault::OutOfMemory),
    }
}
