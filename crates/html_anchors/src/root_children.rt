//! The children of a document's root, which are taken out and put in again.

ghost use Rattle.std.specs.Prelude.{◌≡◌};
ghost use Rattle.html_dom_document.specs.{Documents.{document_root}, Views.{document_view}};
ghost use Rattle.html_anchors.specs.MadeDocuments.{with_children};
ghost use Rattle.html_dom_tree.specs.{Tree.{none}, Views.{nodes_view}};

use html_dom_document::HtmlDocument;
use html_dom_tree::HtmlNode;
use std::alloc::Global;
use std::mem;

pub(crate) fn take_children(alloc: Global, document: &mut HtmlDocument) -> Vec<HtmlNode>
    ensures children { nodes_view result.items ≡ (document_root (document_view document.old)).1 }
    ensures rest { document_view document.new ≡ with_children none (document_view document.old) }
{
    mem::replace(&mut document.root_mut().children, Vec::new(alloc))
}

pub(crate) fn put_children(document: &mut HtmlDocument, children: Vec<HtmlNode>)
    ensures { document_view document.new
        ≡ with_children (nodes_view children.items) (document_view document.old) }
{
    document.root_mut().children = children;
}
