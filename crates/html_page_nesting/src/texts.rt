//! Texts and their characters.

ghost use Rattle.std.specs.{List.{list_all}, Prelude.{◌≡◌, chars}};
ghost use Rattle.html_page_nesting.specs.WrittenTexts as texts;

pub(crate) fn is_empty(text: &str) -> bool
    ensures { result ≡ texts.is_empty (chars text.now) }
{
    text.chars().next().is_none()
}

pub(crate) fn has_return(text: &str) -> bool
    ensures { result ≡ texts.has_return (chars text.now) }
{
    text.chars().any(|c| c == '\r')
}

pub(crate) fn is_white(text: &str) -> bool
    ensures { result ≡ texts.is_white (chars text.now) }
{
    text.chars()
        .all(|c| matches!(c, '\t' | '\n' | '\u{c}' | '\r' | ' '))
}

fn is_plain(text: &str) -> bool
    ensures { result ≡ list_all texts.is_plain_char (chars text.now) }
{
    text.chars().all(|c| !matches!(c, '&' | '<'))
}

/// Returns whether the text is written as it is.
pub(crate) fn is_plain_text(pre_span: bool, text: &str) -> bool
    ensures { result ≡ texts.is_plain_text pre_span (chars text.now) }
{
    is_empty(text) || (!pre_span && is_plain(text))
}
