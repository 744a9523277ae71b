//! The cursor of a walk along siblings, which gives each its DOM index.

ghost use Rattle.std.specs.Prelude.{◌≡◌, ◌<◌, ◌^◌, suc};
ghost use Rattle.html_dom_tree.specs.Views.{node_view};
ghost use Rattle.html_dom_document.specs.Cursor.{element_index, index_at, cursor_after, past_element, first_cursor};

use html_dom_tree::HtmlNode;

/// The state of a walk along a list of nodes that numbers them.
#[derive(Clone, Copy)]
pub(crate) struct Cursor {
    /// The number of elements, frames and ended runs of texts so far.
    passed: usize,
    after_text: bool,
}

impl Cursor {
    pub(crate) fn new() -> Cursor
        ensures { result ≡ first_cursor }
    {
        Cursor {
            passed: 0,
            after_text: false,
        }
    }

    pub(crate) fn pass(&mut self, node: &HtmlNode) -> usize
        requires { suc (element_index self.old) < 2 ^ 64 }
        ensures index { result ≡ index_at self.old (node_view node.now) }
        ensures cursor { self.new ≡ cursor_after self.old (node_view node.now) }
    {
        match node {
            HtmlNode::Tag(_) => self.passed,
            HtmlNode::Text(_, _) => {
                self.after_text = true;
                self.passed
            }
            HtmlNode::Element(_) | HtmlNode::Frame(_) => self.pass_element(),
        }
    }

    fn pass_element(&mut self) -> usize
        requires { suc (element_index self.old) < 2 ^ 64 }
        ensures index { result ≡ element_index self.old }
        ensures cursor { self.new ≡ past_element self.old }
    {
        let ended = if self.after_text { 1 } else { 0 };
        let index = self.passed + ended;
        *self = Cursor {
            passed: index + 1,
            after_text: false,
        };
        index
    }
}
