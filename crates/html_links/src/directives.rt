//! The fragment directive, which a URL loses before a browser looks for a place.

ghost use Rattle.std.specs.Prelude.{◌≡◌, chars};
ghost use Rattle.html_links.specs.Directives.{has_directive, without_directive};

/// Returns whether a fragment has a directive: whether it contains `:~:`.
pub(crate) fn has_directive(fragment: &str) -> bool
    ensures { result ≡ has_directive (chars fragment.now) }
{
    fragment.contains(":~:")
}

/// Returns the text before the first `:~:`, or all of it.
pub(crate) fn without_directive(fragment: &str) -> &str
    ensures { chars result.now ≡ without_directive (chars fragment.now) }
{
    match fragment.split_once(":~:") {
        Some((before, _)) => before,
        None => fragment,
    }
}
