//! The list of a tree that is consumed.

ghost use Rattle.std.specs.Prelude.{◌≡◌, IfOk};
ghost use Rattle.html_dom_tree.specs.{Tree.{node, none, element_node}, Views.{element_view}};
ghost use Rattle.html_dom_flat.specs.FlatTrees.{tree_nodes};

use crate::builder::{Builder, nodes_room};
use crate::flat_tree::FlatTree;
use html_dom_tree::HtmlElement;
use std::alloc::{AllocError, Global};

/// Consumes an element and returns the list of it and all nodes below it. Fails only if an
/// allocation fails, and then drops the element.
///
/// Takes time that grows with the number of nodes and of their attributes. Copies no text.
pub fn flat_tree_of(alloc: Global, element: HtmlElement) -> Result<FlatTree, AllocError>
    ensures { let e = element_view element in
        IfOk result (λ tree. tree_nodes tree ≡ node (element_node e.0 e.1) none) }
{
    let room = nodes_room(&element.children).saturating_add(1);
    let mut builder = Builder::with_room(alloc, room)?;
    builder.move_element(alloc, element)?;
    Ok(builder.into_tree())
}
