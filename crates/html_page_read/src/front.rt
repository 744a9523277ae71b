//! What texts begin with.

ghost use Rattle.std.specs.Prelude.{◌≡◌, IfSome, IsTrue};
ghost use Rattle.html_names_core.specs.Names.{is_ascii};
ghost use Rattle.html_text.specs.Fronts.{BeginsWith};
ghost use Rattle.html_page_read.specs.Fronts.{begins_small};

/// Returns whether a text begins with a lowercase letter.
pub(crate) fn begins_small(text: &str) -> bool
    ensures { result ≡ begins_small text.now }
{
    match text.as_bytes() {
        [first, ..] => first.is_ascii_lowercase(),
        [] => false,
    }
}

/// Returns the rest of a text that begins with this ASCII text.
pub(crate) fn strip<'a>(text: &'a str, front: &str) -> Option<&'a str>
    requires { IsTrue (is_ascii front.now) }
    ensures { IfSome result (λ rest. BeginsWith front.now text.now rest.now) }
{
    let rest = text.strip_prefix(front)?;
    Some(rest)
}
