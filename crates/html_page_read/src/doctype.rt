//! What a document type means for tables (HTML Standard 13.2.5.53 to 13.2.5.68, and 13.2.6.4.1).

ghost use Rattle.std.specs.{List.{after_first, before_first}, Prelude.{◌≡◌, IsTrue, chars, option_map, true}};
ghost use Rattle.html_names_core.specs.Names.{are_ascii, is_ascii, texts};
ghost use Rattle.html_page_names.specs.ForeignNames.{lowered};
ghost use Rattle.html_page_read.specs.DocumentTypes.{type_view};
ghost use Rattle.html_page_read.specs.DocumentTypes as types;
ghost use Rattle.html_page_tree.specs.PageBodies as bodies;

use html_page_names::is_same_lowered;
use html_page_stack::TableRule;
use html_page_tree::is_space;

/// The fronts of public identifiers that trigger quirks mode.
#[rattlefmt::skip]
static QUIRKY_FRONTS: [&str; 55] = [
    "+//silmaril//dtd html pro v0r11 19970101//",
    "-//as//dtd html 3.0 aswedit + extensions//",
    "-//advasoft ltd//dtd html 3.0 aswedit + extensions//",
    "-//ietf//dtd html 2.0 level 1//",
    "-//ietf//dtd html 2.0 level 2//",
    "-//ietf//dtd html 2.0 strict level 1//",
    "-//ietf//dtd html 2.0 strict level 2//",
    "-//ietf//dtd html 2.0 strict//",
    "-//ietf//dtd html 2.0//",
    "-//ietf//dtd html 2.1e//",
    "-//ietf//dtd html 3.0//",
    "-//ietf//dtd html 3.2 final//",
    "-//ietf//dtd html 3.2//",
    "-//ietf//dtd html 3//",
    "-//ietf//dtd html level 0//",
    "-//ietf//dtd html level 1//",
    "-//ietf//dtd html level 2//",
    "-//ietf//dtd html level 3//",
    "-//ietf//dtd html strict level 0//",
    "-//ietf//dtd html strict level 1//",
    "-//ietf//dtd html strict level 2//",
    "-//ietf//dtd html strict level 3//",
    "-//ietf//dtd html strict//",
    "-//ietf//dtd html//",
    "-//metrius//dtd metrius presentational//",
    "-//microsoft//dtd internet explorer 2.0 html strict//",
    "-//microsoft//dtd internet explorer 2.0 html//",
    "-//microsoft//dtd internet explorer 2.0 tables//",
    "-//microsoft//dtd internet explorer 3.0 html strict//",
    "-//microsoft//dtd internet explorer 3.0 html//",
    "-//microsoft//dtd internet explorer 3.0 tables//",
    "-//netscape comm. corp.//dtd html//",
    "-//netscape comm. corp.//dtd strict html//",
    "-//o'reilly and associates//dtd html 2.0//",
    "-//o'reilly and associates//dtd html extended 1.0//",
    "-//o'reilly and associates//dtd html extended relaxed 1.0//",
    "-//sq//dtd html 2.0 hotmetal + extensions//",
    "-//softquad software//dtd hotmetal pro 6.0::19990601::extensions to html 4.0//",
    "-//softquad//dtd hotmetal pro 4.0::19971010::extensions to html 4.0//",
    "-//spyglass//dtd html 2.0 extended//",
    "-//sun microsystems corp.//dtd hotjava html//",
    "-//sun microsystems corp.//dtd hotjava strict html//",
    "-//w3c//dtd html 3 1995-03-24//",
    "-//w3c//dtd html 3.2 draft//",
    "-//w3c//dtd html 3.2 final//",
    "-//w3c//dtd html 3.2//",
    "-//w3c//dtd html 3.2s draft//",
    "-//w3c//dtd html 4.0 frameset//",
    "-//w3c//dtd html 4.0 transitional//",
    "-//w3c//dtd html experimental 19960712//",
    "-//w3c//dtd html experimental 970421//",
    "-//w3c//dtd w3 html//",
    "-//w3o//dtd w3 html 3.0//",
    "-//webtechs//dtd mozilla html 2.0//",
    "-//webtechs//dtd mozilla html//",
];

/// The fronts of public identifiers that trigger quirks mode where there is no system identifier.
static QUIRKY_ALONE: [&str; 2] = [
    "-//w3c//dtd html 4.01 frameset//",
    "-//w3c//dtd html 4.01 transitional//",
];

/// A document type: its name and its identifiers in any case, and whether it forces quirks mode.
#[derive(Clone, Copy)]
struct DocumentType<'a> {
    name: &'a str,
    public: Option<&'a str>,
    system: Option<&'a str>,
    forced: bool,
}

/// Returns the text without the white space at its front.
fn past_spaces(text: &str) -> &str
    ensures { chars result.now ≡ types.past_spaces (chars text.now) }
{
    text.trim_start_matches(|c| is_space(c))
}

/// Splits a text around its first white space.
fn cut_name(text: &str) -> (&str, &str)
    ensures name { chars result.0.now ≡ before_first bodies.is_space (chars text.now) }
    ensures rest { chars result.1.now ≡ after_first bodies.is_space (chars text.now) }
{
    match text.split_once(|c| is_space(c)) {
        Some(parts) => parts,
        None => (text, ""),
    }
}

/// Returns what stands behind an ASCII word, if the text begins with it, in any case. The word has
/// no capitals.
fn past_word<'a>(word: &str, text: &'a str) -> Option<&'a str>
    requires { IsTrue (is_ascii word.now) }
    ensures { option_map (λ t. chars t.now) result ≡ types.past_word word.now (chars text.now) }
{
    let mut left = text.chars();
    for expected in word.chars() {
        if left.next()?.to_ascii_lowercase() != expected {
            return None;
        }
    }
    Some(left.as_str())
}

/// Returns whether a text is that ASCII word, in any case. The word has no capitals.
#[tactic(auto, using(html_names_core::proofs::Lists::chars_ascii))]
fn is_word(word: &str, text: &str) -> bool
    requires { IsTrue (is_ascii word.now) }
    ensures { result ≡ types.is_word word.now (chars text.now) }
{
    is_same_lowered(text, word)
}

fn is_quote(c: char) -> bool
    ensures { result ≡ types.is_quote c }
{
    matches!(c, '"' | '\'')
}

/// Returns the identifier in quotes with which a text begins, and what stands behind it.
fn quoted(text: &str) -> Option<(&str, &str)>
    ensures { option_map (λ x. (chars x.0.now, chars x.1.now)) result
        ≡ types.quoted (chars text.now) }
{
    let mut left = text.chars();
    let quote = left.next()?;
    if !is_quote(quote) {
        return None;
    }
    left.as_str().split_once(quote)
}

impl<'a> DocumentType<'a> {
    /// Returns a document type without identifiers.
    #[tactic(auto, using(crate::proofs::Words::empty_chars))]
    fn named(name: &'a str) -> DocumentType<'a>
        ensures { type_view result ≡ types.named (chars name.now) }
    {
        DocumentType {
            name,
            public: None,
            system: None,
            forced: name.is_empty(),
        }
    }

    /// Returns it with quirks mode forced.
    fn with_quirks(self) -> DocumentType<'a>
        ensures { type_view result ≡ record (type_view self.entry) { forced = true } }
    {
        DocumentType {
            forced: true,
            ..self
        }
    }

    /// Returns it with the system identifier that must stand here.
    fn with_system(self, text: &'a str) -> DocumentType<'a>
        ensures { type_view result
            ≡ types.with_system (type_view self.entry) (types.quoted (chars text.now)) }
    {
        match quoted(text) {
            Some((system, _)) => DocumentType {
                system: Some(system),
                ..self
            },
            None => self.with_quirks(),
        }
    }

    /// Returns it with the public identifier that must stand here, and with what stands behind it.
    #[tactic(auto, using(crate::proofs::Words::empty_chars))]
    fn with_public(self, text: &'a str) -> DocumentType<'a>
        ensures { type_view result
            ≡ types.with_public (type_view self.entry) (types.quoted (chars text.now)) }
    {
        let Some((public, behind)) = quoted(text) else {
            return self.with_quirks();
        };
        let kind = DocumentType {
            public: Some(public),
            ..self
        };
        let rest = past_spaces(behind);
        if rest.is_empty() {
            return kind;
        }
        kind.with_system(rest)
    }

    /// Returns it with what stands behind its name.
    #[tactic(auto, using(crate::proofs::Words::empty_chars))]
    fn with_identifiers(self, text: &'a str) -> DocumentType<'a>
        ensures { type_view result
            ≡ types.with_identifiers (type_view self.entry) (chars text.now) }
    {
        if text.is_empty() {
            return self;
        }
        if let Some(behind) = past_word("public", text) {
            return self.with_public(past_spaces(behind));
        }
        match past_word("system", text) {
            Some(behind) => self.with_system(past_spaces(behind)),
            None => self.with_quirks(),
        }
    }

    /// Returns whether a page with this document type is in quirks mode.
    fn is_quirky(&self) -> bool
        ensures { result ≡ types.is_quirky (type_view self.now) }
    {
        self.forced
            || !is_word("html", self.name)
            || self.public.is_some_and(is_quirky_public)
            || self.system.is_some_and(is_quirky_system)
            || (self.system.is_none() && self.public.is_some_and(is_quirky_alone))
    }
}

/// Returns the document type with that text between `<!DOCTYPE` and `>`.
fn document_type(inner: &str) -> DocumentType<'_>
    ensures { type_view result ≡ types.document_type (chars inner.now) }
{
    let (name, rest) = cut_name(past_spaces(inner));
    DocumentType::named(name).with_identifiers(past_spaces(rest))
}

/// Returns whether a text begins with one of the words, in any case.
fn begins_with_one(fronts: &[&'static str], text: &str) -> bool
    requires { IsTrue (are_ascii (texts fronts.now)) }
    ensures { result ≡ types.begins_with_one (texts fronts.now) (chars text.now) }
{
    for front in fronts {
        if past_word(front, text).is_some() {
            return true;
        }
    }
    false
}

/// Returns whether the public identifier is one that triggers quirks mode.
#[tactic(auto, unfolding(crate::specs::DocumentTypes::is_quirky_word))]
fn is_quirky_word(id: &str) -> bool
    ensures { result ≡ types.is_quirky_word (chars id.now) }
{
    is_word("-//w3o//dtd w3 html strict 3.0//en//", id)
        || is_word("-/w3c/dtd html 4.0 transitional/en", id)
        || is_word("html", id)
}

/// Returns whether the public identifier begins with one of [`QUIRKY_FRONTS`].
#[tactic(auto, unfolding(crate::specs::DocumentTypes::has_quirky_front))]
fn has_quirky_front(id: &str) -> bool
    ensures { result ≡ types.has_quirky_front (chars id.now) }
{
    begins_with_one(&QUIRKY_FRONTS, id)
}

/// Returns whether the public identifier triggers quirks mode, whatever the system identifier is.
fn is_quirky_public(id: &str) -> bool
    ensures { result ≡ types.is_quirky_public (chars id.now) }
{
    is_quirky_word(id) || has_quirky_front(id)
}

/// Returns whether the public identifier triggers quirks mode without a system identifier.
#[tactic(auto, unfolding(crate::specs::DocumentTypes::is_quirky_alone))]
fn is_quirky_alone(id: &str) -> bool
    ensures { result ≡ types.is_quirky_alone (chars id.now) }
{
    begins_with_one(&QUIRKY_ALONE, id)
}

/// Returns whether the system identifier triggers quirks mode.
#[tactic(auto, unfolding(crate::specs::DocumentTypes::is_quirky_system))]
fn is_quirky_system(id: &str) -> bool
    ensures { result ≡ types.is_quirky_system (chars id.now) }
{
    is_word(
        "http://www.ibm.com/data/dtd/v11/ibmxhtml1-transitional.dtd",
        id,
    )
}

/// Returns what the text between `<!DOCTYPE` and `>` means for tables.
#[tactic(auto, unfolding(crate::specs::DocumentTypes::table_rule))]
pub(crate) fn table_rule(inner: &str) -> TableRule
    ensures { result ≡ types.table_rule (chars inner.now) }
{
    if document_type(inner).is_quirky() {
        return TableRule::KeepsP;
    }
    TableRule::ClosesP
}
