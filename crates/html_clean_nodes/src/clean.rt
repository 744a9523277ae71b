//! The walk over foreign nodes that makes those that stay.

ghost use Rattle.std.specs.Prelude.{◌≡◌, IfOk, OnOk};
ghost use Rattle.html_dom_tree.specs.Views.{nodes_view};
ghost use Rattle.html_clean_policy.specs.PolicyViews.{policy_view};
ghost use Rattle.html_clean_nodes.specs.{Cleaned.{cleaned}, Cleaning.{cleaned_behind, cleaning_view}};

use crate::cleaner::Cleaner;
use html_clean_policy::Policy;
use html_dom_tree::HtmlNode;
use html_dom_walk::Walk;
use std::alloc::{AllocError, Global};

/// Returns what stays of the nodes of a foreign fragment. Fails only if an allocation fails.
///
/// An element stays if the policy allows it and browsers leave it where it is among what stays around
/// it ([`misnested`](html_page_nesting::misnested) reports the others), with the attributes that stay.
/// Another one gives place to what stays of its children. If its edges part words, as those of blocks
/// do, a line feed is put there, unless a space or a line feed or nothing stands before. What
/// [`is_dropped`](html_clean_policy::is_dropped) names goes with all that is in it, and so do tags,
/// frames and what is in a void element.
///
/// A text stays if browsers leave it where it is, with the characters that HTML can hold
/// ([`replaced`](html_clean_values::replaced)). The first text of an element, and of the nodes, loses
/// byte order marks at its beginning, which a reader would drop.
///
/// Takes time linear in the size of the nodes. Beside the result, allocates for the open elements.
pub fn clean_nodes(
    alloc: Global,
    nodes: &[HtmlNode],
    policy: &Policy,
) -> Result<Vec<HtmlNode>, AllocError>
    ensures { IfOk result (λ kept. nodes_view kept.items
        ≡ cleaned (policy_view policy.now) (nodes_view nodes.now)) }
{
    let mut cleaner = Cleaner::new(alloc);
    pass_nodes(alloc, nodes, policy, &mut cleaner)?;
    Ok(cleaner.into_nodes())
}

fn pass_nodes(
    alloc: Global,
    nodes: &[HtmlNode],
    policy: &Policy,
    cleaner: &mut Cleaner,
) -> Result<(), AllocError>
    ensures { OnOk result (cleaning_view cleaner.new ≡ cleaned_behind (policy_view policy.now)
        (cleaning_view cleaner.old) (nodes_view nodes.now)) }
{
    let mut walk = Walk::over(alloc, nodes);
    while let Some(visit) = walk.next()? {
        if cleaner.pass(policy, visit)? {
            walk.skip();
        }
    }
    Ok(())
}
