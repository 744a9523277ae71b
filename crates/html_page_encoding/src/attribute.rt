//! The attributes of a tag at the beginning of a page (HTML Standard 13.2.3.2, "get an attribute").

ghost use Rattle.std.specs.Prelude.{◌≡◌, ◌∷◌, length, option_map};
ghost use Rattle.html_page_encoding.specs.Attributes as attributes;
ghost use Rattle.html_page_encoding.specs.Classes.{behind, front};
ghost use Rattle.html_page_encoding.specs.Views.{front_view, read_view};
ghost use Rattle.html_page_encoding.specs.declared.class.Class.TheVariants as class;

use crate::class::{Class, split, split_first};
use crate::meta::Meta;
use crate::part::Part;

/// An attribute, and the bytes behind it.
#[derive(Clone, Copy)]
pub(crate) struct Attribute<'a> {
    pub(crate) name: &'a [u8],
    pub(crate) value: Part<'a>,
    pub(crate) rest: &'a [u8],
}

/// What a tag goes on with.
#[derive(Clone, Copy)]
pub(crate) enum TagFront<'a> {
    /// Nothing that ends before the scanned bytes do.
    Cut,
    /// Its `>`, and these bytes behind it.
    Close(&'a [u8]),
    /// An attribute.
    Next(Attribute<'a>),
}

/// Returns an attribute whose value ends with a quote that is before these bytes.
fn quoted<'a>(name: &'a [u8], quote: u8, bytes: &'a [u8]) -> TagFront<'a>
    ensures { front_view result ≡ attributes.quoted name.now (front (class.Except quote) bytes.now)
        (length bytes.now) (behind (class.Except quote) bytes.now) }
{
    let (text, behind) = split(Class::Except(quote), bytes);
    let left = bytes.len();
    match behind {
        [_, rest @ ..] => TagFront::Next(Attribute {
            name,
            value: Part { text, left },
            rest,
        }),
        [] => TagFront::Cut,
    }
}

/// Returns an attribute with a value without quotes.
fn unquoted<'a>(name: &'a [u8], bytes: &'a [u8]) -> TagFront<'a>
    ensures { front_view result ≡ attributes.unquoted name.now (front class.Word bytes.now)
        (length bytes.now) (behind class.Word bytes.now) }
{
    let (text, rest) = split(Class::Word, bytes);
    if rest.is_empty() {
        return TagFront::Cut;
    }
    let left = bytes.len();
    TagFront::Next(Attribute {
        name,
        value: Part { text, left },
        rest,
    })
}

/// Returns an attribute whose value begins with these bytes.
fn value_read<'a>(name: &'a [u8], bytes: &'a [u8]) -> TagFront<'a>
    ensures { front_view result ≡ attributes.value_read name.now bytes.now }
{
    match bytes {
        [] => TagFront::Cut,
        [quote @ (b'"' | b'\''), rest @ ..] => quoted(name, *quote, rest),
        _ => unquoted(name, bytes),
    }
}

/// Returns an attribute with these bytes behind its name and white space.
fn name_read<'a>(name: &'a [u8], bytes: &'a [u8]) -> TagFront<'a>
    ensures { front_view result ≡ attributes.name_read name.now bytes.now }
{
    match bytes {
        [] => TagFront::Cut,
        [b'=', rest @ ..] => {
            let (_, value) = split(Class::Space, rest);
            value_read(name, value)
        }
        _ => {
            let (text, left) = (&bytes[..0], bytes.len());
            TagFront::Next(Attribute {
                name,
                value: Part { text, left },
                rest: bytes,
            })
        }
    }
}

/// Returns what the bytes behind white space and `/` begin with.
fn attribute_read(bytes: &[u8]) -> TagFront<'_>
    ensures { front_view result ≡ attributes.attribute_read bytes.now }
{
    match split_first(bytes) {
        None => TagFront::Cut,
        Some((b'>', rest)) => TagFront::Close(rest),
        Some((_, behind_first)) => {
            let (front, behind) = split(Class::Name, behind_first);
            let (_, rest) = split(Class::Space, behind);
            name_read(&bytes[..front.len() + 1], rest)
        }
    }
}

#[tactic(auto, unfolding(crate::specs::Attributes::tag_front))]
fn tag_front(bytes: &[u8]) -> TagFront<'_>
    ensures { front_view result ≡ attributes.tag_front bytes.now }
{
    let (_, rest) = split(Class::Gap, bytes);
    attribute_read(rest)
}

/// Returns the attributes up to the tag's `>`, if that is scanned, and the bytes behind it.
pub(crate) fn attributes(bytes: &[u8]) -> Option<(Meta<'_>, &[u8])>
    ensures { option_map read_view result ≡ attributes.attributes bytes.now }
{
    let mut meta = Meta::new();
    let mut rest = bytes;
    for _ in 0..bytes.len() {
        match tag_front(rest) {
            TagFront::Cut => return None,
            TagFront::Close(behind) => return Some((meta, behind)),
            TagFront::Next(attribute) => {
                meta = meta.with(attribute.name, attribute.value);
                rest = attribute.rest;
            }
        }
    }
    None
}
