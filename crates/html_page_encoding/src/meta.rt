//! The attributes of a `meta` that matter.

ghost use Rattle.std.specs.Prelude.{◌≡◌};
ghost use Rattle.html_page_encoding.specs.Attributes as attributes;
ghost use Rattle.html_page_encoding.specs.Views.{meta_view, part_view, parts_view};

use crate::part::Part;
use crate::word::is_word;

/// The values of the attributes of a `meta` that matter, of which the first of each name counts.
#[derive(Clone, Copy)]
pub(crate) struct Meta<'a> {
    /// The value of `http-equiv`.
    pub(crate) pragma: Option<Part<'a>>,
    pub(crate) content: Option<Part<'a>>,
    pub(crate) charset: Option<Part<'a>>,
}

fn first_of<'a>(first: Option<Part<'a>>, value: Part<'a>) -> Option<Part<'a>>
    ensures { parts_view result
        ≡ attributes.first_of (parts_view first.entry) (part_view value.entry) }
{
    match first {
        Some(first) => Some(first),
        None => Some(value),
    }
}

impl<'a> Meta<'a> {
    pub(crate) fn new() -> Meta<'a>
        ensures { meta_view result ≡ attributes.no_attributes }
    {
        Meta {
            pragma: None,
            content: None,
            charset: None,
        }
    }

    /// Returns these attributes and another one.
    #[tactic(auto, unfolding(crate::specs::Attributes::taken))]
    pub(crate) fn with(self, name: &[u8], value: Part<'a>) -> Meta<'a>
        ensures { meta_view result
            ≡ attributes.taken (meta_view self.entry) name.now (part_view value.entry) }
    {
        if is_word("http-equiv", name) {
            let pragma = first_of(self.pragma, value);
            return Meta { pragma, ..self };
        }
        if is_word("content", name) {
            let content = first_of(self.content, value);
            return Meta { content, ..self };
        }
        if is_word("charset", name) {
            let charset = first_of(self.charset, value);
            return Meta { charset, ..self };
        }
        self
    }
}
