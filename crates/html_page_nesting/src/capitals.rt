//! Names that a parser leaves as they are in HTML, SVG and MathML (HTML Standard 13.2.6.1, 13.2.6.5).

ghost use Rattle.std.specs.Prelude.{◌≡◌, chars};
ghost use Rattle.html_page_names.specs.ForeignNames.{keeps_case};
ghost use Rattle.html_page_nesting.specs.WrittenTags.{capital_attrs, capital_tags};

use crate::reading::Space;
use html_page_names::{keeps_case, math_attr_keeps_case, svg_attr_keeps_case, svg_tag_keeps_case};

/// Returns whether the name of an element in that namespace is read as it is written.
pub(crate) fn tag_keeps_case(space: Space, name: &str) -> bool
    ensures { result ≡ keeps_case (capital_tags space) (chars name.now) }
{
    match space {
        Space::Svg => svg_tag_keeps_case(name),
        Space::Html | Space::MathMl => keeps_case(name),
    }
}

/// Returns whether the name of an attribute of such an element is read as it is written.
pub(crate) fn attr_keeps_case(space: Space, name: &str) -> bool
    ensures { result ≡ keeps_case (capital_attrs space) (chars name.now) }
{
    match space {
        Space::Html => keeps_case(name),
        Space::Svg => svg_attr_keeps_case(name),
        Space::MathMl => math_attr_keeps_case(name),
    }
}
