//! Lists of names, as tables have them.

ghost use Rattle.std.specs.Prelude.{◌≡◌, IfOk, IsTrue, map};
ghost use Rattle.html_names_core.specs.{Names.{are_ascii, is_ascii, texts}, Texts.{text_view, texts_view}};
ghost use Rattle.html_page_names.specs.Capitals.{are_names};
ghost use Rattle.html_clean_policy.specs.Tables.{are_name_pairs, text_pairs};

use html_names_core::{HtmlAttr, HtmlTag};
use std::alloc::{AllocError, Global};

/// Returns the tags of these names.
pub(crate) fn tags_in(alloc: Global, names: &[&'static str]) -> Result<Vec<HtmlTag>, AllocError>
    requires { IsTrue (are_names (texts names.now)) }
    ensures { IfOk result (λ made. made.items ≡ texts names.now) }
{
    let mut made = Vec::new(alloc);
    for name in names {
        made.push(HtmlTag::constant(alloc, name)?)?;
    }
    Ok(made)
}

/// Returns the attributes of these names.
pub(crate) fn attrs_in(alloc: Global, names: &[&'static str]) -> Result<Vec<HtmlAttr>, AllocError>
    requires { IsTrue (are_names (texts names.now)) }
    ensures { IfOk result (λ made. made.items ≡ texts names.now) }
{
    let mut made = Vec::new(alloc);
    for name in names {
        made.push(HtmlAttr::constant(alloc, name)?)?;
    }
    Ok(made)
}

/// Returns the tags and attributes of these names.
pub(crate) fn own_attrs_in(
    alloc: Global,
    pairs: &[(&'static str, &'static str)],
) -> Result<Vec<(HtmlTag, HtmlAttr)>, AllocError>
    requires { IsTrue (are_name_pairs (text_pairs pairs.now)) }
    ensures { IfOk result (λ made. made.items ≡ text_pairs pairs.now) }
{
    let mut made = Vec::new(alloc);
    for (tag, attr) in pairs {
        made.push((
            HtmlTag::constant(alloc, tag)?,
            HtmlAttr::constant(alloc, attr)?,
        ))?;
    }
    Ok(made)
}

/// Returns a copy of an ASCII text.
#[tactic(auto, using(html_names_core::proofs::Lists::chars_ascii))]
pub(crate) fn text_in(alloc: Global, text: &'static str) -> Result<String, AllocError>
    requires { IsTrue (is_ascii text.now) }
    ensures { IfOk result (λ made. text_view made ≡ text.now) }
{
    Ok(String::from_str(alloc, text)?)
}

/// Returns copies of these ASCII texts.
pub(crate) fn texts_in(alloc: Global, names: &[&'static str]) -> Result<Vec<String>, AllocError>
    requires { IsTrue (are_ascii (texts names.now)) }
    ensures { IfOk result (λ made. texts_view made.items ≡ texts names.now) }
{
    let mut made = Vec::new(alloc);
    for name in names {
        made.push(text_in(alloc, name)?)?;
    }
    Ok(made)
}
