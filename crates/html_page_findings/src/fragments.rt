//! Links to fragments of their own page that lead nowhere.

ghost use Rattle.std.specs.Prelude.{◌≡◌, List, [], ◌++◌, IfOk};
ghost use Rattle.html_dom_tree.specs.Views.{element_view};
ghost use Rattle.html_links.specs.UsedNames.{used_in};
ghost use Rattle.html_page_findings.specs.{Findings.{dead_view}, Fragments.{dead_among, dead_fragments}, PlacedTexts.{Placed}};

use crate::text_sink::TextSink;
use crate::walk::report_texts;
use crate::wanted::Wanted;
use html_dom_tree::HtmlElement;
use html_links::{base_is_elsewhere, fragment_leads, place_names};
use html_names_core::Refused;
use std::alloc::{AllocError, Global};
use std::collections::BTreeSet;

/// A link to a fragment of its own page that leads nowhere.
#[derive(Debug, Drop, PartialEq, Eq, Hash)]
pub struct DeadFragment {
    /// The path to the link: the index of each child on the way from the root, and empty for the
    /// root. [`element_at`](crate::element_at) returns the link.
    pub path: Vec<usize>,
    /// The text after `#`, as [`fragment_in`](html_links::fragment_in) returns it for the
    /// `href`.
    pub fragment: String,
}

/// Returns the links of a tree to fragments of their own page that lead nowhere, in document order,
/// including the root. Such a link is an `a` or `area` whose first `href` has a fragment
/// ([`fragment_in`](html_links::fragment_in)) that leads neither to a place of the tree
/// ([`place_names`]) nor to the top in a browser ([`fragment_leads`]). What a `template` contains
/// is neither a link nor a place.
///
/// Returns none if a `base` leads links to fragments to another address: if the tree has one
/// ([`base_of`](html_links::base_of)) that is neither empty nor a fragment alone. To check such
/// a page, resolve its links against its address.
///
/// Takes time logarithmic in the number of places for each place and each link to a fragment, and
/// time linear in its depth for each dead link. Holds a copy of the places' names besides the
/// result. Fails only if an allocation fails.
///
/// ```
/// use html_page::{dead_fragments, read_page};
///
/// let alloc = rt.alloc();
/// let text = r##"<!DOCTYPE html><p><b id="a b"></b><a href="#a%20b">x</a><a href="#c">y</a></p>"##;
/// let (root, _) = read_page(alloc, text, 50)?;
/// let dead = dead_fragments(alloc, &root)?;
/// assert_eq!(rt; dead.len(), 1);
/// for link in &dead {
///     assert!(rt; link.path.as_slice() == [1, 0, 2].as_slice());
///     assert_eq!(rt; link.fragment.as_str(), "c");
/// }
/// ```
pub fn dead_fragments(alloc: Global, root: &HtmlElement) -> Result<Vec<DeadFragment>, AllocError>
    ensures { IfOk result (λ dead. dead_view dead.items ≡ dead_fragments (element_view root.now)) }
{
    let dead = report_dead_fragments(alloc, root, Vec::new(alloc))?;
    Ok(dead)
}

/// Reports the links that [`dead_fragments`] returns to a sink as it finds them, each by its path
/// and its fragment, and returns the sink. Hands back the sink if an allocation or the sink fails.
pub fn report_dead_fragments<S: TextSink>(
    alloc: Global,
    root: &HtmlElement,
    sink: S,
) -> Result<S, Refused<S>>
    ensures { IfOk result (λ given.
        S.made_with given [] ≡ S.made_with sink (dead_fragments (element_view root.now))) }
{
    if base_is_elsewhere(root) {
        return Ok(sink);
    }
    let Ok(places) = place_names(alloc, root) else {
        return Err(Refused { back: sink });
    };
    let links = Links { places, dead: sink };
    match report_texts(alloc, root, Wanted::Fragments, links) {
        Ok(Links { dead, .. }) => Ok(dead),
        Err(Refused { back }) => Err(Refused { back: back.dead }),
    }
}

impl TextSink for Vec<DeadFragment> {
    ghost Made = { List Placed };

    ghost made_with = { λ dead ps. dead_view dead.items ++ ps };

    fn take(&mut self, alloc: Global, path: &[usize], text: String) -> Result<(), AllocError> {
        let path = path.to_vec(alloc)?;
        let fragment = text;
        self.push(DeadFragment { path, fragment })?;
        Ok(())
    }
}

/// A sink that passes on only the fragments that lead nowhere, given the names of the places.
#[derive(Drop)]
struct Links<S> {
    places: BTreeSet<String>,
    dead: S,
}

impl<S: TextSink> TextSink for Links<S> {
    ghost Made = { S.Made };

    ghost made_with = { λ links ps. S.made_with links.dead (dead_among (used_in links.places) ps) };

    fn take(&mut self, alloc: Global, path: &[usize], text: String) -> Result<(), AllocError> {
        if !fragment_leads(alloc, &self.places, text.as_str())? {
            self.dead.take(alloc, path, text)?;
        }
        Ok(())
    }
}
