//! Positions of start tags: a path of DOM indices, and a point if the path leads to a frame.

ghost use Rattle.std.specs.Prelude.{◌≡◌, IfOk, option_map};
ghost use Rattle.html_dom_document.specs.Introspectors.{position_view};

use html_dom_tree::Point;
use std::alloc::AllocError;

/// The position of a start tag: a path of DOM indices, and a point if the path leads to a frame.
#[derive(Debug, Drop)]
pub struct HtmlPosition {
    pub(crate) path: Vec<usize>,
    pub(crate) point: Option<Point>,
}

fn copy_path(path: &Vec<usize>) -> Result<Vec<usize>, AllocError>
    ensures { IfOk result (λ copy. copy.items ≡ path.now.items) }
{
    path.clone()
}

impl HtmlPosition {
    ghost use Rattle.html_dom_tree.specs.FrameViews.{point_view};

    /// Returns the DOM indices of the elements around the tag, outermost first, without `html`
    /// elements, followed by that of the tag itself, or the path of the frame for a tag in a frame.
    pub fn path(&self) -> &[usize]
        ensures { result.now ≡ (position_view self.now).path }
    {
        &self.path
    }

    /// Returns the point of a tag in a frame, or `None` for a tag elsewhere.
    pub fn point(&self) -> Option<Point>
        ensures { option_map point_view result ≡ (position_view self.now).point }
    {
        self.point
    }
}

impl Clone for HtmlPosition {
    ghost is_clone = { λ position copy. position_view copy ≡ position_view position };

    fn clone(&self) -> Result<HtmlPosition, AllocError> {
        Ok(HtmlPosition {
            path: copy_path(&self.path)?,
            point: self.point,
        })
    }
}
