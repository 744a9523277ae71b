//! Laws of documents made from items. The contract of each function has laws; the functions do
//! nothing.

ghost use Rattle.typst_html_export.specs.CleanInfo.{CleanDocumentsAreWritten, CleanLinkedDocumentsAreWritten};
ghost use Rattle.typst_html_export.specs.HeadNodes.{CleanHeadsAreWritten};
ghost use Rattle.typst_html_export.specs.LinkedRoots.{AnchorsKeepAtoms, LinksKeepAtoms, LinksKeepFrames, LinksKeepNames};
ghost use Rattle.typst_html_export.specs.OwnRoots.{InformationStandsAlone, NoNodesChangeNothing, OwnRootsHaveNoInfo, OwnRootsHaveNoNodes};
ghost use Rattle.typst_html_export.specs.SpacesInDocuments.{PlainDocumentsAreMade, PlainDocumentsAreSeen, PlainLinkedDocumentsAreRead, PlainLinkedDocumentsAreSeen};

/// Items in plain flow, without footnotes and none too deep, become a document, and exactly the
/// items' text is visible in its text, plain or pretty and with its anchors, if its root has valid
/// names and no fault. If items and information are clean, there is no fault.
pub fn plain_documents()
    ensures made { PlainDocumentsAreMade }
    ensures seen { PlainDocumentsAreSeen }
    ensures clean { CleanDocumentsAreWritten }
{}

/// The document of items in plain flow, without footnotes, with its anchors and with the `href` of
/// its links, whatever names these lead to: exactly the items' text is visible of the root, plain
/// or pretty, and in its text if the root has valid names and no fault. If items and information
/// are clean, there is no fault.
pub fn plain_documents_with_links()
    ensures read { PlainLinkedDocumentsAreRead }
    ensures seen { PlainLinkedDocumentsAreSeen }
    ensures clean { CleanLinkedDocumentsAreWritten }
{}

/// Anchors, and the `href` of links, change nothing visible in a tree, once white space has
/// collapsed. With the `href` of links no frame comes or goes, and valid names stay valid.
pub fn links_are_unseen()
    ensures anchors { AnchorsKeepAtoms }
    ensures links { LinksKeepAtoms }
    ensures frame_free { LinksKeepFrames }
    ensures named { LinksKeepNames }
{}

/// Nodes of your own in the head change nothing of a document if there are none, so that a head that
/// is made has the information alone, or if its items have a root of their own. In the latter case
/// the information is not in its tree either. If these nodes, and items in plain flow and the
/// information are clean, the document has no fault.
pub fn own_heads()
    ensures none { NoNodesChangeNothing }
    ensures alone { InformationStandsAlone }
    ensures own { OwnRootsHaveNoNodes }
    ensures unknown { OwnRootsHaveNoInfo }
    ensures clean { CleanHeadsAreWritten }
{}
