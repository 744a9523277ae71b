//! The document: its output, its information and its introspector, and access to each of them.

use crate::HtmlIntrospector;
use crate::info::DocumentInfo;
use crate::output::HtmlOutput;
use html_dom_tree::{HtmlElement, HtmlNode};
use html_names_core::Refused;
use std::alloc::{AllocError, Global};

/// A document: its nodes with the root among them, information about it, and the positions that its
/// located elements had when it was made.
#[derive(Debug, Drop)]
pub struct HtmlDocument {
    output: HtmlOutput,
    info: DocumentInfo,
    introspector: HtmlIntrospector,
}

impl HtmlDocument {
    ghost use Rattle.std.specs.{Borrow.{sem}, Prelude.{◌≡◌, Some, IfOk, IfErr}};
    ghost use Rattle.html_dom_tree.specs.{Views.{node_view, nodes_view, element_view}, declared.node.HtmlElement.{HtmlElement}};
    ghost use Rattle.html_dom_document.specs.DocumentLending.{LendsInfo, LendsIntrospector, with_document_root, LendsDocumentRoot};
    ghost use Rattle.html_dom_document.specs.{Documents.{node_at, root_of, with_root, new_document}, Introspectors.{introspector_view}};
    ghost use Rattle.html_dom_document.specs.{Positions.{PositionsLead}, Views.{output_view, info_view, document_view}};

    /// Creates a document from this output and information. Records the positions of all start tags
    /// and the destinations of links; there are no anchors yet. If an allocation fails, the error
    /// holds both arguments.
    ///
    /// If the root is an `html` element with no frame, empty text or further `html` element below
    /// it, the position of each location that starts below it and not before it leads to the
    /// element that holds its first start tag: the path without its last index, which is the tag's
    /// own, goes from child to child of the root's normal form.
    pub fn new(
        alloc: Global,
        output: HtmlOutput,
        info: DocumentInfo,
    ) -> Result<HtmlDocument, Refused<(HtmlOutput, DocumentInfo)>>
        ensures ok { IfOk result (λ document.
            document_view document ≡ new_document (output_view output) (info_view info)) }
        ensures leads { IfOk result (λ document. PositionsLead (document_view document)) }
        ensures back { IfErr result (λ refused.
            (refused.back.0 ≡ output) × (refused.back.1 ≡ info)) }
    {
        match HtmlIntrospector::new(alloc, output.nodes()) {
            Ok(introspector) => Ok(HtmlDocument {
                output,
                info,
                introspector,
            }),
            Err(_) => Err(Refused {
                back: (output, info),
            }),
        }
    }

    /// Returns all nodes, in order.
    pub fn nodes(&self) -> &[HtmlNode]
        ensures { nodes_view result.now ≡ (document_view self.now).output.nodes }
    {
        self.output.nodes()
    }

    /// Returns the root.
    pub fn root(&self) -> &HtmlElement
        ensures { root_of (document_view self.now).output ≡ Some (element_view result.now) }
    {
        self.output.root()
    }

    /// Returns a mutable reference to the root. Everything else stays, including what is recorded:
    /// positions and links are those of the nodes from which the document was made.
    pub fn root_mut(&mut self) -> &mut HtmlElement
        ensures* writes_back { sem 𝓛 (LendsDocumentRoot self.entry result) }
        ensures value { root_of (document_view self.old).output ≡ Some (element_view result.now) }
        ensures written { let old = document_view self.old in (last : HtmlElement) →
            document_view (with_document_root self.old last)
            ≡ record old { output = with_root old.output (element_view last) } }
    {
        self.output.root_mut()
    }

    /// Returns the root as a node.
    pub fn root_node(&self) -> &HtmlNode
        ensures { let output = (document_view self.now).output in
            node_at output.nodes output.root ≡ Some (node_view result.now) }
    {
        self.output.root_node()
    }

    /// Returns the information about the document.
    pub fn info(&self) -> &DocumentInfo
        ensures { info_view result.now ≡ (document_view self.now).info }
    {
        &self.info
    }

    /// Returns a mutable reference to the information. Everything else stays.
    pub fn info_mut(&mut self) -> &mut DocumentInfo
        ensures* writes_back { sem 𝓛 (LendsInfo self.entry result) }
        ensures value { info_view result.now ≡ (document_view self.old).info }
    {
        &mut self.info
    }

    /// Returns the positions of located elements, the destinations of links, and the anchors.
    pub fn introspector(&self) -> &HtmlIntrospector
        ensures { introspector_view result.now ≡ (document_view self.now).introspector }
    {
        &self.introspector
    }

    /// Returns a mutable reference to the introspector. Everything else stays.
    pub fn introspector_mut(&mut self) -> &mut HtmlIntrospector
        ensures* writes_back { sem 𝓛 (LendsIntrospector self.entry result) }
        ensures value { introspector_view result.now ≡ (document_view self.old).introspector }
    {
        &mut self.introspector
    }

    /// Returns a copy of the document. Fails only if an allocation fails.
    pub fn try_clone(&self) -> Result<HtmlDocument, AllocError>
        ensures { IfOk result (λ copy. document_view copy ≡ document_view self.now) }
    {
        Ok(HtmlDocument {
            output: self.output.try_clone()?,
            info: self.info.try_clone()?,
            introspector: self.introspector.try_clone()?,
        })
    }
}
