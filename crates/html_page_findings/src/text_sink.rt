//! Receivers of the texts that are found in a tree.

ghost use Rattle.std.specs.Prelude.{List, [], ◌∷◌, OnOk};
ghost use Rattle.html_names_core.specs.Texts.{text_view};
ghost use Rattle.html_dom_tree.specs.Taking.{Takes};
ghost use Rattle.html_page_findings.specs.PlacedTexts.{Placed};

use std::alloc::{AllocError, Global};

/// A receiver of the texts that are found in a tree, in document order.
pub trait TextSink: Drop {
    /// The type of the value that the sink makes of texts.
    ghost Made: { Type 0 };

    /// The value that the sink makes in the end if it takes exactly these further texts.
    ghost made_with: { Self → List Placed → Made };

    /// Takes the next text and its path: the index of each child on the way from the root.
    fn take(&mut self, alloc: Global, path: &[usize], text: String) -> Result<(), AllocError>
        ensures { OnOk result (Takes (made_with self.old) (made_with self.new)
            ((path.now, text_view text) ∷ [])) };
}
