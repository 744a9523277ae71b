//! Lone spaces in elements that preserve them.

ghost use Rattle.std.specs.Prelude.{◌≡◌, ℕ, List, false, drop, IfOk, OnOk};
ghost use Rattle.html_dom_tree.specs.{Tree.{element_node, text_node}, Views.{element_view, node_view, nodes_view}};
ghost use Rattle.html_flow_convert.specs.{AnswerLists.{answers_view}, BareSpaces.{element_things, node_things, nodes_things}};
ghost use Rattle.html_flow_convert.specs.Protected.{space_count, is_bare, node_by_answers, nodes_by_answers, protected_nodes, text_by_answer};

use crate::answers::{answer_for, are_bare};
use crate::look::is_entered;
use crate::made::pre_wrap_node;
use crate::one::is_one;
use crate::reused::Reused;
use html_dom_tree::{HtmlElement, HtmlNode};
use std::alloc::{AllocError, Global};
use std::mem;

#[derive(Drop)]
struct Answers<'a> {
    /// The parts that hold whether each lone space is bare.
    reused: &'a Reused,
    /// The number of entries used.
    next: usize,
}

impl Answers<'_> {
    fn next_is_bare(&mut self) -> bool
        ensures answer { result ≡ is_bare (answers_view self.old) }
        ensures rest { answers_view self.new ≡ drop 1 (answers_view self.old) }
    {
        if self.next < self.reused.bare.len() {
            let bare = self.reused.bare[self.next];
            self.next += 1;
            return bare;
        }
        false
    }
}

fn keep_text(alloc: Global, reused: &Reused, node: &mut HtmlNode) -> Result<(), AllocError>
    ensures { (text : List ℕ) → (span : ℕ) → node_view node.old ≡ text_node text span →
        OnOk result (node_view node.new ≡ text_by_answer false text span) }
{
    if let HtmlNode::Text(text, span) = node {
        let text = mem::replace(text, String::new(alloc));
        let mut children = Vec::with_capacity(alloc, 1)?;
        children.push(HtmlNode::text(text, *span))?;
        *node = pre_wrap_node(alloc, reused, children, *span)?;
    }
    Ok(())
}

fn protect_space(
    alloc: Global,
    node: &mut HtmlNode,
    answers: &mut Answers<'_>,
) -> Result<(), AllocError>
    ensures made { (text : List ℕ) → (span : ℕ) → node_view node.old ≡ text_node text span →
        OnOk result (node_view node.new
        ≡ text_by_answer (is_bare (answers_view answers.old)) text span) }
    ensures rest { answers_view answers.new ≡ drop 1 (answers_view answers.old) }
{
    if answers.next_is_bare() {
        return Ok(());
    }
    keep_text(alloc, answers.reused, node)
}

// The node comes first among the parameters: its depth proves that the recursion ends.

#[cycle(protect)]
#[tactic(auto, unfolding(crate::specs::BareSpaces::node_things, crate::specs::Protected::node_by_answers))]
fn protect_node(
    node: &mut HtmlNode,
    alloc: Global,
    answers: &mut Answers<'_>,
) -> Result<(), AllocError>
    ensures made { OnOk result
        (node_view node.new ≡ node_by_answers (answers_view answers.old) (node_view node.old)) }
    ensures rest { OnOk result (answers_view answers.new
        ≡ drop (space_count (node_things (node_view node.old))) (answers_view answers.old)) }
{
    match node {
        HtmlNode::Tag(_) | HtmlNode::Frame(_) => Ok(()),
        HtmlNode::Text(text, _) => {
            if !is_one(b' ', text.as_str()) {
                return Ok(());
            }
            protect_space(alloc, node, answers)
        }
        HtmlNode::Element(element) => protect_element(element, alloc, answers),
    }
}

#[cycle(protect)]
fn protect_element(
    element: &mut HtmlElement,
    alloc: Global,
    answers: &mut Answers<'_>,
) -> Result<(), AllocError>
    ensures made { let old = element_view element.old in let new = element_view element.new in
        OnOk result (element_node new.0 new.1
        ≡ node_by_answers (answers_view answers.old) (element_node old.0 old.1)) }
    ensures rest { let old = element_view element.old in
        OnOk result (answers_view answers.new
        ≡ drop (space_count (element_things old.0 (nodes_things old.1))) (answers_view answers.old)) }
{
    if !is_entered(element) {
        return Ok(());
    }
    protect_nodes(&mut element.children, alloc, answers)
}

#[cycle(protect)]
fn protect_nodes(
    nodes: &mut [HtmlNode],
    alloc: Global,
    answers: &mut Answers<'_>,
) -> Result<(), AllocError>
    ensures made { OnOk result
        (nodes_view nodes.new ≡ nodes_by_answers (answers_view answers.old) (nodes_view nodes.old)) }
    ensures rest { OnOk result (answers_view answers.new
        ≡ drop (space_count (nodes_things (nodes_view nodes.old))) (answers_view answers.old)) }
{
    for node in nodes.iter_mut() {
        protect_node(node, alloc, answers)?;
    }
    Ok(())
}

/// Wraps each lone space that is not bare in a `span` that preserves it, also inside the elements
/// that are looked into (see [`crate::bare_spaces`]). Fails only if an allocation fails.
///
/// Takes time linear in the number of nodes that are looked at, and changes each in place.
pub fn protect_spaces(alloc: Global, nodes: Vec<HtmlNode>) -> Result<Vec<HtmlNode>, AllocError>
    ensures { IfOk result (λ made.
        nodes_view made.items ≡ protected_nodes (nodes_view nodes.items)) }
{
    let mut reused = Reused::new(alloc)?;
    with_spaces(alloc, &mut reused, nodes)
}

/// Returns what [`protect_spaces`] returns.
pub(crate) fn with_spaces(
    alloc: Global,
    reused: &mut Reused,
    mut nodes: Vec<HtmlNode>,
) -> Result<Vec<HtmlNode>, AllocError>
    ensures { IfOk result (λ made.
        nodes_view made.items ≡ protected_nodes (nodes_view nodes.items)) }
{
    answer_for(alloc, &nodes, &mut reused.bare)?;
    if are_bare(&reused.bare) {
        return Ok(nodes);
    }
    let mut answers = Answers {
        reused: &*reused,
        next: 0,
    };
    protect_nodes(&mut nodes, alloc, &mut answers)?;
    Ok(nodes)
}
