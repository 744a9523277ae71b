//! Bytes of markup, by classes.

ghost use Rattle.std.specs.Prelude.{◌≡◌, ◌∷◌, [], MatchOption};
ghost use Rattle.html_page_encoding.specs.Classes as classes;

/// A class of bytes.
#[derive(Clone, Copy)]
pub(crate) enum Class {
    /// White space and controls of ASCII.
    Control,
    /// White space of ASCII.
    Space,
    /// What may stand between attributes: white space and `/`.
    Gap,
    /// All that the name of an attribute goes on with.
    Name,
    /// All that the name of a tag, or a value without quotes, consists of.
    Word,
    /// All that a label without quotes consists of, in a value with more than the label.
    Label,
    /// All bytes except one.
    Except(u8),
}

impl Class {
    pub(crate) fn has(self, byte: u8) -> bool
        ensures { result ≡ classes.has self byte }
    {
        match self {
            Class::Control => byte <= b' ',
            Class::Space => byte.is_ascii_whitespace(),
            Class::Gap => byte.is_ascii_whitespace() || byte == b'/',
            Class::Name => !(byte.is_ascii_whitespace() || matches!(byte, b'/' | b'=' | b'>')),
            Class::Word => !(byte.is_ascii_whitespace() || byte == b'>'),
            Class::Label => !(byte.is_ascii_whitespace() || byte == b';'),
            Class::Except(other) => byte != other,
        }
    }
}

/// Returns the bytes of the class at the front, and those behind them.
pub(crate) fn split(class: Class, bytes: &[u8]) -> (&[u8], &[u8])
    ensures front { result.0.now ≡ classes.front class bytes.now }
    ensures behind { result.1.now ≡ classes.behind class bytes.now }
{
    for (at, byte) in bytes.iter().enumerate() {
        if !class.has(*byte) {
            return bytes.split_at(at);
        }
    }
    bytes.split_at(bytes.len())
}

/// Returns the first byte, and those behind it.
pub(crate) fn split_first(bytes: &[u8]) -> Option<(u8, &[u8])>
    ensures { MatchOption result (bytes.now ≡ []) (λ x. bytes.now ≡ x.0 ∷ x.1.now) }
{
    let (first, rest) = bytes.split_first()?;
    Some((*first, rest))
}
