//! Encodings, and their names and labels (Encoding Standard, "names and labels").

ghost use Rattle.std.specs.{Char.{to_ascii_lowercase}, Prelude.{◌≡◌, bytes_eq, map}};
ghost use Rattle.html_names_core.specs.Names.{stands_in, texts};
ghost use Rattle.html_page_encoding.specs.Labels as labels;

/// An encoding of pages.
#[derive(Clone, Copy, Debug, PartialEq, Eq, Hash)]
pub enum Encoding {
    /// UTF-8.
    Utf8,
    /// UTF-16, with the low byte of each unit first.
    Utf16LittleEndian,
    /// UTF-16, with the high byte of each unit first.
    Utf16BigEndian,
    /// windows-1252, which labels of ISO-8859-1 and ASCII name too.
    Windows1252,
}

/// The labels of UTF-8, and those of UTF-16, which count as labels of UTF-8 in a page.
#[rattlefmt::skip]
static UTF8_LABELS: [&str; 15] = [
    "unicode-1-1-utf-8", "unicode11utf8", "unicode20utf8", "utf-8", "utf8", "x-unicode20utf8",
    "unicodefffe", "utf-16be",
    "csunicode", "iso-10646-ucs-2", "ucs-2", "unicode", "unicodefeff", "utf-16", "utf-16le",
];

/// The labels of windows-1252, and that of x-user-defined, which counts as one in a page.
#[rattlefmt::skip]
static WINDOWS_LABELS: [&str; 18] = [
    "ansi_x3.4-1968", "ascii", "cp1252", "cp819", "csisolatin1", "ibm819",
    "iso-8859-1", "iso-ir-100", "iso8859-1", "iso88591", "iso_8859-1", "iso_8859-1:1987",
    "l1", "latin1", "us-ascii", "windows-1252", "x-cp1252",
    "x-user-defined",
];

impl Encoding {
    /// Returns the name of the encoding in the Encoding Standard, as in `UTF-16LE`.
    pub fn name(self) -> &'static str
        ensures { result.now ≡ labels.encoding_name self }
    {
        match self {
            Encoding::Utf8 => "UTF-8",
            Encoding::Utf16LittleEndian => "UTF-16LE",
            Encoding::Utf16BigEndian => "UTF-16BE",
            Encoding::Windows1252 => "windows-1252",
        }
    }
}

/// Returns whether the labels are the same, in any ASCII case.
fn is_same(known: &str, label: &[u8]) -> bool
    ensures { result
        ≡ bytes_eq (map to_ascii_lowercase known.now) (map to_ascii_lowercase label.now) }
{
    known.as_bytes().eq_ignore_ascii_case(label)
}

/// Returns whether the label is one of those, in any ASCII case.
#[tactic(auto, unfolding(html_names_core::specs::Names::stands_in))]
fn is_one_of(labels: &[&'static str], label: &[u8]) -> bool
    ensures { result ≡ stands_in (map (map to_ascii_lowercase) (texts labels.now))
        (map to_ascii_lowercase label.now) }
{
    for known in labels {
        if is_same(known, label) {
            return true;
        }
    }
    false
}

/// Returns the encoding of a page that declares this label, if the label is known.
#[tactic(auto, unfolding(crate::specs::Labels::label_encoding))]
pub(crate) fn label_encoding(label: &[u8]) -> Option<Encoding>
    ensures { result ≡ labels.label_encoding label.now }
{
    if is_one_of(&UTF8_LABELS, label) {
        Some(Encoding::Utf8)
    } else if is_one_of(&WINDOWS_LABELS, label) {
        Some(Encoding::Windows1252)
    } else {
        None
    }
}
