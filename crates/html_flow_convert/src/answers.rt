//! Whether each lone space of a list of nodes is bare.

ghost use Rattle.std.specs.{List.{list_all}, Prelude.{◌≡◌, [], IfOk, OnOk}};
ghost use Rattle.html_dom_tree.specs.Views.{head_of, node_view, nodes_view};
ghost use Rattle.html_flow_convert.specs.BareSpaces.{bare_spaces, element_things, node_things, nodes_things};
ghost use Rattle.html_flow_convert.specs.{Looks.{head_look, look_things}, Walks.{walk_on, walk_view}};

use crate::line::{Last, push_answer};
use crate::look::{Look, element_look, text_look};
use html_dom_tree::{HtmlElement, HtmlNode};
use std::alloc::{AllocError, Global};
use std::mem;

/// A walk over nodes that finds which lone spaces are bare.
#[derive(Drop)]
struct SpaceWalk {
    /// Whether each lone space is bare, except one that stands last.
    bare: Vec<bool>,
    last: Last,
}

impl SpaceWalk {
    fn see(&mut self, look: Look) -> Result<(), AllocError>
        ensures { OnOk result (walk_view self.new ≡ walk_on (walk_view self.old) (look_things look [])) }
    {
        push_answer(&mut self.bare, self.last, look)?;
        self.last = self.last.after(look);
        Ok(())
    }

    #[cycle(walk)]
    fn see_nodes(&mut self, nodes: &[HtmlNode]) -> Result<(), AllocError>
        ensures { OnOk result (walk_view self.new
            ≡ walk_on (walk_view self.old) (nodes_things (nodes_view nodes.now))) }
    {
        for node in nodes {
            self.see_node(node)?;
        }
        Ok(())
    }

    #[cycle(walk)]
    #[tactic(auto, using(crate::proofs::Looks::text_seen), unfolding(crate::specs::BareSpaces::node_things, crate::specs::Walks::walk_on))]
    fn see_node(&mut self, node: &HtmlNode) -> Result<(), AllocError>
        ensures { OnOk result
            (walk_view self.new ≡ walk_on (walk_view self.old) (node_things (node_view node.now))) }
    {
        match node {
            HtmlNode::Tag(_) => Ok(()),
            HtmlNode::Text(text, _) => self.see(text_look(text.as_str())),
            HtmlNode::Element(element) => self.see_element(element),
            HtmlNode::Frame(_) => self.see(Look::Visible),
        }
    }

    #[cycle(walk)]
    fn see_element(&mut self, element: &HtmlElement) -> Result<(), AllocError>
        ensures { let inside = nodes_things (nodes_view element.now.children.items) in
            OnOk result (walk_view self.new
            ≡ walk_on (walk_view self.old) (element_things (head_of element.now) inside)) }
    {
        let look = look_of(element);
        if look.is_inside() {
            return self.see_nodes(&element.children);
        }
        self.see(look)
    }
}

fn look_of(element: &HtmlElement) -> Look
    ensures { result ≡ head_look (head_of element.now) }
{
    element_look(&element.tag, &element.css, element.pre_span)
}

/// Replaces the content of the list: it then has whether each lone space of the nodes is bare, in
/// order.
pub(crate) fn answer_for(
    alloc: Global,
    nodes: &[HtmlNode],
    list: &mut Vec<bool>,
) -> Result<(), AllocError>
    ensures { OnOk result (list.new.items ≡ bare_spaces (nodes_view nodes.now)) }
{
    let mut bare = mem::replace(list, Vec::new(alloc));
    bare.clear();
    let mut walk = SpaceWalk {
        bare,
        last: Last::Border,
    };
    walk.see_nodes(nodes)?;
    walk.see(Look::Border)?;
    *list = walk.bare;
    Ok(())
}

pub(crate) fn are_bare(answers: &[bool]) -> bool
    ensures { result ≡ list_all (λ bare. bare) answers.now }
{
    answers.iter().all(|bare| *bare)
}
