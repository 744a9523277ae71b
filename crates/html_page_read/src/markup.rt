//! Markup after `<!`, and document types (HTML Standard 13.2.5.42, 13.2.5.53).

ghost use Rattle.std.specs.{Char.{to_ascii_lowercase}, Prelude.{◌≡◌, OnOk, IsTrue, bytes_eq, chars, codes, map}};
ghost use Rattle.html_dom_tree.specs.Views.{text_view};
ghost use Rattle.html_names_core.specs.Names.{is_ascii};
ghost use Rattle.html_page_read.specs.PageTokens.{begins};
ghost use Rattle.html_page_read.specs.PageTokens as tokens;
ghost use Rattle.html_page_read.specs.PageReaderViews.{reader_of, reading_of};
ghost use Rattle.html_page_names.specs.ForeignNames.{lowered};

use crate::comment::CommentPart;
use crate::doctype::table_rule;
use crate::reader::{Brackets, Reader, State};
use html_dom_tree::text;
use html_page_stack::{PageError, TableRule};
use html_text::begins;
use std::alloc::AllocError;

#[tactic(auto, using(crate::proofs::Words::is_word))]
fn is(word: &str, text: &str) -> bool
    requires { IsTrue (is_ascii word.now) }
    ensures { result ≡ bytes_eq (chars text.now) word.now }
{
    text == word
}

/// Returns whether an ASCII word begins with the text in lowercase.
fn begins_lowered(word: &str, text: &str) -> bool
    requires ascii { IsTrue (is_ascii word.now) }
    requires small { map to_ascii_lowercase word.now ≡ word.now }
    ensures { result ≡ begins (lowered (chars text.now)) word.now }
{
    let (word, text) = (word.as_bytes(), text.as_bytes());
    text.len() <= word.len() && text.eq_ignore_ascii_case(&word[..text.len()])
}

/// Returns whether it is `doctype`, in any ASCII case.
fn is_doctype(text: &str) -> bool
    ensures { result ≡ bytes_eq (lowered (chars text.now)) (codes "doctype") }
{
    text.eq_ignore_ascii_case("doctype")
}

/// Returns whether the markup that may stand after `<!` begins with the text.
fn begins_markup(text: &str) -> bool
    ensures { result ≡ tokens.begins_markup (chars text.now) }
{
    begins("--", text) || begins_lowered("doctype", text) || begins("[CDATA[", text)
}

impl Reader {
    /// Reads `<![CDATA[` as a comment, unless it stands in SVG or MathML.
    fn begin_cdata(&mut self) -> Result<(), AllocError>
        ensures { OnOk result (reader_of self.new ≡ tokens.cdata_begun (reading_of self.old.reading)) }
    {
        if self.reading.page.stack.is_in_foreign() {
            self.brackets = Brackets::None;
            self.state = State::Cdata;
            return Ok(());
        }
        self.reading.note(PageError::CdataInHtmlContent)?;
        self.state = State::BogusComment;
        Ok(())
    }

    pub(crate) fn markup(&mut self, c: char) -> Result<(), AllocError>
        ensures { OnOk result (reader_of self.new
            ≡ tokens.markup_read (text_view self.old.inner) c (reading_of self.old.reading)) }
    {
        text::add(&mut self.inner, c)?;
        let text = self.inner.as_str();
        if is("--", text) {
            self.part = CommentPart::Start;
            self.state = State::Comment;
            return Ok(());
        }
        if is_doctype(text) {
            text::empty(&mut self.inner);
            self.state = State::Doctype;
            return Ok(());
        }
        if is("[CDATA[", text) {
            return self.begin_cdata();
        }
        if begins_markup(text) {
            self.state = State::Markup;
            return Ok(());
        }
        self.reading.note(PageError::IncorrectlyOpenedComment)?;
        self.bogus_comment(c)
    }

    /// Reads a document type, which counts only before all other tokens.
    pub(crate) fn take_doctype(&mut self) -> Result<(), AllocError>
        ensures { OnOk result (reading_of self.new.reading
            ≡ tokens.doctype_taken (text_view self.old.inner) (reading_of self.old.reading)) }
    {
        if !matches!(self.reading.page.tables, TableRule::Unseen) {
            self.reading.pass_comment()?;
            return self.reading.note(PageError::MisplacedDocumentType);
        }
        self.reading.fresh = false;
        self.reading.page.tables = table_rule(self.inner.as_str());
        Ok(())
    }

    pub(crate) fn doctype(&mut self, c: char) -> Result<(), AllocError>
        ensures { OnOk result (reader_of self.new
            ≡ tokens.doctype_read (text_view self.old.inner) c (reading_of self.old.reading)) }
    {
        if c == '>' {
            self.take_doctype()?;
            self.state = State::Data;
        } else {
            text::add(&mut self.inner, c)?;
            self.state = State::Doctype;
        }
        Ok(())
    }
}
