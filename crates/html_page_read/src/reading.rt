//! The progress in a page: the tree so far, and what tokens do to it.

ghost use Rattle.std.specs.Prelude.{◌≡◌, OnOk, chars};
ghost use Rattle.html_page_read.specs.PageTokens as tokens;
ghost use Rattle.html_page_read.specs.PageReaderViews.{reading_of, bracket_count};
ghost use Rattle.html_page_stack.specs.PageViews.{token_of};

use crate::reader::Brackets;
use html_page_stack::{Page, PageError, Token};
use html_page_tree::{end_text, read_token, takes_text};
use std::alloc::AllocError;

/// The progress in a page, without the state.
#[derive(Drop)]
pub(crate) struct Reading {
    pub(crate) page: Page,
    /// The number of bytes that were read.
    pub(crate) place: usize,
    /// Whether the last token was a start tag that drops a following line feed.
    pub(crate) fresh: bool,
    /// Whether the last character was a carriage return.
    pub(crate) after_return: bool,
}

impl Reading {
    /// Records an error at the next character.
    pub(crate) fn note(&mut self, error: PageError) -> Result<(), AllocError>
        ensures { OnOk result (reading_of self.new ≡ tokens.erring error (reading_of self.old)) }
    {
        self.page.notes.add(error, self.place)
    }

    pub(crate) fn note_if(&mut self, is_error: bool, error: PageError) -> Result<(), AllocError>
        ensures { OnOk result (reading_of self.new
            ≡ tokens.erring_if is_error error (reading_of self.old)) }
    {
        if is_error { self.note(error) } else { Ok(()) }
    }

    pub(crate) fn note_some(&mut self, error: Option<PageError>) -> Result<(), AllocError>
        ensures { OnOk result (reading_of self.new
            ≡ tokens.erring_some error (reading_of self.old)) }
    {
        match error {
            Some(error) => self.note(error),
            None => Ok(()),
        }
    }

    pub(crate) fn emit(&mut self, token: Token) -> Result<(), AllocError>
        ensures { OnOk result (reading_of self.new
            ≡ tokens.emitted (token_of token) (reading_of self.old)) }
    {
        read_token(&mut self.page, token)?;
        self.fresh = false;
        Ok(())
    }

    /// Emits a character. Drops a line feed right after a start tag that drops it.
    #[tactic(auto, using(html_page_tree::proofs::TakenTexts::text_taken))]
    #[inline(always)]
    pub(crate) fn emit_char(&mut self, c: char) -> Result<(), AllocError>
        ensures { OnOk result (reading_of self.new ≡ tokens.char_emitted c (reading_of self.old)) }
    {
        if self.fresh && c == '\n' {
            self.fresh = false;
            return Ok(());
        }
        if c != '\0' && takes_text(&self.page) {
            self.page.add_char(c)?;
            self.fresh = false;
            return Ok(());
        }
        self.emit(Token::Char(c))
    }

    /// Goes on behind a comment or a document type, which leaves nothing.
    pub(crate) fn pass_comment(&mut self) -> Result<(), AllocError>
        ensures { OnOk result (reading_of self.new ≡ tokens.behind_comment (reading_of self.old)) }
    {
        end_text(&mut self.page)?;
        self.fresh = false;
        Ok(())
    }

    pub(crate) fn emit_text(&mut self, text: &str) -> Result<(), AllocError>
        ensures { OnOk result (reading_of self.new
            ≡ tokens.chars_emitted (chars text.now) (reading_of self.old)) }
    {
        for c in text.chars() {
            self.emit_char(c)?;
        }
        Ok(())
    }

    pub(crate) fn emit_brackets(&mut self, brackets: Brackets) -> Result<(), AllocError>
        ensures { OnOk result (reading_of self.new
            ≡ tokens.brackets_emitted (bracket_count brackets) (reading_of self.old)) }
    {
        match brackets {
            Brackets::None => Ok(()),
            Brackets::One => self.emit_char(']'),
            Brackets::Two => {
                self.emit_char(']')?;
                self.emit_char(']')
            }
        }
    }
}
