//! Laws of how white space collapses. Each function has laws as its contract, and does nothing.

ghost use Rattle.typst_html_spaces.specs.Anchored.{AnchorsAreUnseen, AnchorsKeepEdges, AnchorsKeepPlainNodes};
ghost use Rattle.typst_html_spaces.specs.{AtomContexts.{CollapsesByContext, PiecesOfBoth}, CleanItems.{CleanItemsMakeCleanNodes}};
ghost use Rattle.typst_html_spaces.specs.{CleanNodes.{AnchorsKeepCleanNodes, CleanNodesAreWritten}, LineContexts.{ProtectsByContext}};
ghost use Rattle.typst_html_spaces.specs.PlainNodes.{PlainFlowMakesPlainNodes, PlainNamesAreInside, PlainNodesCanBeRead};
ghost use Rattle.typst_html_spaces.specs.ReadableNodes.{AnchorsKeepBody, AnchorsKeepFrameFree, AnchorsKeepReadable, ReadableNodesCanBeRead};
ghost use Rattle.typst_html_spaces.specs.SeenBody.{BodyIsSeen, ItemsAreSeen};
ghost use Rattle.typst_html_spaces.specs.SeenRows.{AreSeen, AreNotPlain, lines, blocks, lists_and_tables, others};
ghost use Rattle.typst_html_spaces.specs.SpacesStay.{PrettySpacesStay, SpacesStay};

/// What stands before and after an atom determines what collapsing makes of it.
#[tactic(auto, using(crate::proofs::AtomContexts::collapses_by_context))]
pub fn atoms_collapse_by_context()
    ensures { CollapsesByContext }
{}

/// What is visible of two lists, each with the other beside it, is what is visible of them
/// together.
#[tactic(auto, using(crate::proofs::AtomContexts::pieces_of_both))]
pub fn atoms_in_contexts_append()
    ensures { PiecesOfBoth }
{}

/// What stands before and after a lone space determines whether it is protected or stays as it is.
#[tactic(auto, using(crate::proofs::LineContexts::protects_by_context))]
pub fn lone_spaces_by_context()
    ensures { ProtectsByContext }
{}

/// Examples of texts and spaces of paragraphs, blocks, lists and tables, and what is visible of
/// them; and of items that are no plain flow.
pub fn rows_are_seen()
    ensures lines { AreSeen lines }
    ensures blocks { AreSeen blocks }
    ensures lists_and_tables { AreSeen lists_and_tables }
    ensures others { AreNotPlain others }
{}

/// Spaces stay: what is visible of the nodes that items in plain flow become at block level, with
/// their css in `style`, once white space has collapsed, is exactly the items' text.
#[tactic(auto, using(crate::proofs::SpacesStay::spaces_stay))]
pub fn spaces_stay()
    ensures { SpacesStay }
{}

/// Spaces of items in plain flow also stay as pretty writing lays their nodes out, in an element
/// that is no raw one: its indents are invisible.
#[tactic(auto, using(crate::proofs::SpacesStay::pretty_spaces_stay))]
pub fn pretty_spaces_stay()
    ensures { PrettySpacesStay }
{}

/// If a root can be read back, what is visible of the body of its text, plain or pretty, is what is
/// visible of its body, if what has indents there is a border. If the body is made of items in
/// plain flow, that is exactly their text.
#[tactic(auto, using(crate::proofs::SeenBody::body_is_seen, crate::proofs::SeenBody::items_are_seen))]
pub fn documents_are_seen()
    ensures body { BodyIsSeen }
    ensures items { ItemsAreSeen }
{}

/// Items in plain flow become elements of plain names alone and no frame, in which what has indents
/// is a border. So they can be read back, and none is a document's root, its body or a raw element.
pub fn plain_flow_makes_plain_nodes()
    ensures made { PlainFlowMakesPlainNodes }
    ensures read { PlainNodesCanBeRead }
    ensures inside { PlainNamesAreInside }
{}

/// Items in plain flow become nodes without a fault, if their texts, values, roles and labels and
/// the role of their list hold text characters alone, and no void element has a body. They stay
/// without a fault with anchors and with an `href` of links, of text characters alone.
pub fn clean_items_are_written()
    ensures made { CleanItemsMakeCleanNodes }
    ensures written { CleanNodesAreWritten }
    ensures anchored { AnchorsKeepCleanNodes }
{}

/// Anchors and the destinations of links are invisible: an `id` or an `href` in front of an
/// element's attributes, and a `span` with nothing but an `id`, after a tag or around a text. What
/// has indents stays a border, plain nodes stay plain, no frame comes or goes, there is no new raw
/// element, and the first `body` stays the first. Nodes without a raw element and without a frame
/// can be read back.
pub fn anchors_are_unseen()
    ensures seen { AnchorsAreUnseen }
    ensures edges { AnchorsKeepEdges }
    ensures plain { AnchorsKeepPlainNodes }
    ensures frame_free { AnchorsKeepFrameFree }
    ensures body { AnchorsKeepBody }
    ensures readable { AnchorsKeepReadable }
    ensures read { ReadableNodesCanBeRead }
{}
