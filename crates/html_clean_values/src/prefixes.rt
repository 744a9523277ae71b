//! Prefixes of ids and names.

ghost use Rattle.std.specs.{List.{starts_with}, Prelude.{◌≡◌, ◌++◌, ◌==◌, IfOk, OnOk, chars}};
ghost use Rattle.html_names_core.specs.Texts.{text_view};
ghost use Rattle.html_clean_values.specs.Prefixes as names;

use crate::words::next_word;
use html_dom_tree::text::split_first;
use html_names_core::text_writer::TextWriter;
use std::alloc::{AllocError, Global};

fn begins(text: &str, prefix: &str) -> bool
    ensures { result ≡ starts_with ◌==◌ (chars text.now) (chars prefix.now) }
{
    text.starts_with(prefix)
}

#[tactic(auto, unfolding(crate::specs::Prefixes::prefixed))]
fn push_prefixed(made: &mut TextWriter, prefix: &str, text: &str) -> Result<(), AllocError>
    ensures { OnOk result (made.new
        ≡ made.old ++ names.prefixed (chars prefix.now) (chars text.now)) }
{
    if !begins(text, prefix) {
        made.push_str(prefix)?;
    }
    made.push_str(text)
}

/// Returns a text with a prefix, or the text as it is if it begins with the prefix. Fails only if
/// an allocation fails.
///
/// ```
/// use html_clean_values::prefixed;
///
/// let alloc = rt.alloc();
/// assert_eq!(rt; prefixed(alloc, "user-", "salt")?.as_str(), "user-salt");
/// assert_eq!(rt; prefixed(alloc, "user-", "user-salt")?.as_str(), "user-salt");
/// ```
pub fn prefixed(alloc: Global, prefix: &str, text: &str) -> Result<String, AllocError>
    ensures { IfOk result (λ made.
        text_view made ≡ names.prefixed (chars prefix.now) (chars text.now)) }
{
    let mut made = TextWriter::new(alloc);
    push_prefixed(&mut made, prefix, text)?;
    Ok(made.into_string())
}

fn push_name(made: &mut TextWriter, prefix: &str, name: &str) -> Result<(), AllocError>
    ensures { OnOk result (made.new
        ≡ made.old ++ names.prefixed_name (chars prefix.now) (chars name.now)) }
{
    match split_first(name) {
        Some(_) => push_prefixed(made, prefix, name),
        None => Ok(()),
    }
}

/// Does the same as [`prefixed`], but an empty name stays empty.
///
/// ```
/// use html_clean_values::prefixed_name;
///
/// let alloc = rt.alloc();
/// assert_eq!(rt; prefixed_name(alloc, "user-", "salt")?.as_str(), "user-salt");
/// assert_eq!(rt; prefixed_name(alloc, "user-", "")?.as_str(), "");
/// ```
pub fn prefixed_name(alloc: Global, prefix: &str, name: &str) -> Result<String, AllocError>
    ensures { IfOk result (λ made.
        text_view made ≡ names.prefixed_name (chars prefix.now) (chars name.now)) }
{
    let mut made = TextWriter::new(alloc);
    push_name(&mut made, prefix, name)?;
    Ok(made.into_string())
}

/// Returns the words of a text, which white space separates, each as [`prefixed`] has it, with one
/// space between each two: what becomes of an attribute that names several elements. Fails only if
/// an allocation fails.
///
/// ```
/// use html_clean_values::prefixed_words;
///
/// let words = prefixed_words(rt.alloc(), "user-", " salt  user-oil\n")?;
/// assert_eq!(rt; words.as_str(), "user-salt user-oil");
/// ```
#[tactic(auto, unfolding(crate::specs::Prefixes::prefixed_words))]
pub fn prefixed_words(alloc: Global, prefix: &str, text: &str) -> Result<String, AllocError>
    ensures { IfOk result (λ made.
        text_view made ≡ names.prefixed_words (chars prefix.now) (chars text.now)) }
{
    let mut made = TextWriter::new(alloc);
    let mut separator = "";
    let mut left = text;
    while let Some((word, rest)) = next_word(left) {
        made.push_str(separator)?;
        push_prefixed(&mut made, prefix, word)?;
        separator = " ";
        left = rest;
    }
    Ok(made.into_string())
}

/// Returns an `href` with a prefix after its `#`, if it leads to a place of its own page: if it
/// begins with `#` and has more characters. Any other `href` stays as it is. Fails only if an
/// allocation fails.
///
/// ```
/// use html_clean_values::prefixed_href;
///
/// let alloc = rt.alloc();
/// assert_eq!(rt; prefixed_href(alloc, "user-", "#salt")?.as_str(), "#user-salt");
/// assert_eq!(rt; prefixed_href(alloc, "user-", "#")?.as_str(), "#");
/// assert_eq!(rt; prefixed_href(alloc, "user-", "/a#salt")?.as_str(), "/a#salt");
/// ```
pub fn prefixed_href(alloc: Global, prefix: &str, href: &str) -> Result<String, AllocError>
    ensures { IfOk result (λ made.
        text_view made ≡ names.prefixed_href (chars prefix.now) (chars href.now)) }
{
    let mut made = TextWriter::new(alloc);
    match split_first(href) {
        Some(('#', name)) => {
            made.push('#')?;
            push_name(&mut made, prefix, name)?;
        }
        _ => made.push_str(href)?,
    }
    Ok(made.into_string())
}
