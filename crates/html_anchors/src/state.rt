//! The state of the walk over a tree.

use crate::location_maps::{label_of, put_each, put_first_label, put_name};
use crate::names::AnchorNames;
use html_dom_tree::{HtmlNode, Location};
use std::alloc::{AllocError, Global};
use std::collections::{BTreeMap, BTreeSet};

/// The locations that wait to be served, the names in use, and the names of locations.
#[derive(Drop)]
pub(crate) struct AnchorState {
    /// The locations of the start tags that wait, in order.
    pub(crate) waiting: Vec<Location>,
    /// The label of the first start tag of each location that waits.
    pub(crate) labels: BTreeMap<Location, Option<String>>,
    pub(crate) names: AnchorNames,
    /// The last name of each location.
    pub(crate) answers: BTreeMap<Location, String>,
}

impl AnchorState {
    ghost use Rattle.std.specs.{BTreeSet.{contains}, Prelude.{◌≡◌, Some, None, IfOk, IsTrue, OnOk, option_map}};
    ghost use Rattle.html_dom_tree.specs.{Tree.{node, none}, Views.{node_view, text_view, optional_text_view}};
    ghost use Rattle.html_dom_document.specs.Introspectors.{location_cmp};
    ghost use Rattle.html_anchors.specs.AnchorWalk.{with_waiting, after_tag_start, with_answers, first_waiting, at_first, walk, Serves};
    ghost use Rattle.html_anchors.specs.{Events.{Targets}, Joined.{named_at}, NewNames.{new_name}, WalkViews.{state_view}};
    ghost use Rattle.html_links.specs.UsedNames.{used_in};

    pub(crate) fn queue(
        &mut self,
        location: Location,
        label: &Option<String>,
    ) -> Result<(), AllocError>
        ensures { OnOk result (state_view self.new
            ≡ with_waiting location.0 (optional_text_view label.now) (state_view self.old)) }
    {
        self.waiting.push(location)?;
        put_first_label(&mut self.labels, location, label)
    }

    pub(crate) fn start(
        &mut self,
        targets: &BTreeSet<Location>,
        location: Location,
        label: &Option<String>,
    ) -> Result<(), AllocError>
        ensures { OnOk result (state_view self.new
            ≡ after_tag_start (contains location_cmp targets.now location) location.0
            (optional_text_view label.now) (state_view self.old)) }
    {
        if targets.contains(&location) {
            self.queue(location, label)?;
        }
        Ok(())
    }

    /// Returns whether the node is a text and no location waits. If so, the walk changes neither
    /// the node nor the state.
    pub(crate) fn passes(&self, child: &HtmlNode) -> bool
        ensures { IsTrue result → (x : Targets) →
            walk x (node (node_view child.now) none) (state_view self.now)
            ≡ (node (node_view child.now) none, state_view self.now) }
    {
        match child {
            HtmlNode::Text(_, _) => self.waiting.is_empty(),
            HtmlNode::Tag(_) | HtmlNode::Element(_) | HtmlNode::Frame(_) => false,
        }
    }

    /// Returns the label of the first start tag that waits, if one does.
    fn first_waiting(&self) -> Result<Option<Option<String>>, AllocError>
        ensures { IfOk result (λ label.
            option_map optional_text_view label ≡ first_waiting (state_view self.now)) }
    {
        match self.waiting.first() {
            Some(location) => label_of(&self.labels, *location),
            None => Ok(None),
        }
    }

    pub(crate) fn new(alloc: Global, names: AnchorNames) -> AnchorState
        ensures { state_view result ≡ at_first (used_in names.used) }
    {
        AnchorState {
            waiting: Vec::new(alloc),
            labels: BTreeMap::new(alloc),
            names,
            answers: BTreeMap::new(alloc),
        }
    }

    pub(crate) fn name_start(
        &mut self,
        alloc: Global,
        location: Location,
        label: &Option<String>,
    ) -> Result<String, AllocError>
        ensures name { IfOk result (λ name. text_view name
            ≡ new_name (optional_text_view label.now) (state_view self.old).used) }
        ensures state { IfOk result (λ name.
            state_view self.new ≡ named_at location.0 (text_view name) (state_view self.old)) }
    {
        let name = self.names.make(alloc, label)?;
        put_name(&mut self.answers, location, &name)?;
        Ok(name)
    }

    fn answer_all(&mut self, alloc: Global, name: &String) -> Result<(), AllocError>
        ensures { OnOk result (state_view self.new
            ≡ with_answers (text_view name.now) (state_view self.old)) }
    {
        put_each(&mut self.answers, &self.waiting, name)?;
        self.waiting = Vec::new(alloc);
        self.labels = BTreeMap::new(alloc);
        Ok(())
    }

    fn serve_with(&mut self, alloc: Global, own: &String) -> Result<Option<String>, AllocError>
        ensures { IfOk result (λ made. Serves (state_view self.old) (state_view self.new)
            (Some None) (Some (text_view own.now)) (optional_text_view made)) }
    {
        self.answer_all(alloc, own)?;
        Ok(None)
    }

    fn serve_new(
        &mut self,
        alloc: Global,
        label: &Option<String>,
    ) -> Result<Option<String>, AllocError>
        ensures { IfOk result (λ made. Serves (state_view self.old) (state_view self.new)
            (Some (optional_text_view label.now)) None (optional_text_view made)) }
    {
        let name = self.names.make(alloc, label)?;
        self.answer_all(alloc, &name)?;
        Ok(Some(name))
    }

    /// Serves all waiting locations. Returns the name made for the server, unless none waits or it
    /// has a name of its own.
    pub(crate) fn serve(
        &mut self,
        alloc: Global,
        own: Option<&String>,
    ) -> Result<Option<String>, AllocError>
        ensures { IfOk result (λ made. Serves (state_view self.old) (state_view self.new)
            (first_waiting (state_view self.old)) (option_map (λ n. text_view n.now) own.entry)
            (optional_text_view made)) }
    {
        let Some(label) = self.first_waiting()? else {
            return Ok(None);
        };
        match own {
            Some(name) => self.serve_with(alloc, name),
            None => self.serve_new(alloc, &label),
        }
    }

    /// Serves all waiting locations if that of this end tag waits, and returns the name made for
    /// them.
    pub(crate) fn end(
        &mut self,
        alloc: Global,
        location: Location,
    ) -> Result<Option<String>, AllocError>
        ensures { IfOk result (λ made. Serves (state_view self.old) (state_view self.new)
            ((state_view self.old).labels location.0) None (optional_text_view made)) }
    {
        match label_of(&self.labels, location)? {
            Some(label) => self.serve_new(alloc, &label),
            None => Ok(None),
        }
    }
}
