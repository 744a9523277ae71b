//! The content of `<![CDATA[` (HTML Standard 13.2.5.69 to 13.2.5.71).

ghost use Rattle.std.specs.Prelude.{◌≡◌, OnOk};
ghost use Rattle.html_page_read.specs.PageTokens as tokens;
ghost use Rattle.html_page_read.specs.PageReaderViews.{bracket_count, reader_of, reading_of};

use crate::reader::{Brackets, Reader, State};
use std::alloc::AllocError;

impl Reader {
    fn stay_in_cdata(&mut self, brackets: Brackets)
        ensures { reader_of self.new ≡ record {
          state = tokens.Cdata (bracket_count brackets);
          reading = reading_of self.old.reading;
        } }
    {
        self.brackets = brackets;
        self.state = State::Cdata;
    }

    fn bracket(&mut self, c: char) -> Result<(), AllocError>
        requires { c ≡ 93 }
        ensures { OnOk result (reader_of self.new
            ≡ tokens.cdata_read (bracket_count self.old.brackets) c (reading_of
            self.old.reading)) }
    {
        match self.brackets {
            Brackets::None => self.stay_in_cdata(Brackets::One),
            Brackets::One => self.stay_in_cdata(Brackets::Two),
            Brackets::Two => {
                self.reading.emit_char(c)?;
                self.stay_in_cdata(Brackets::Two);
            }
        }
        Ok(())
    }

    pub(crate) fn cdata(&mut self, c: char) -> Result<(), AllocError>
        ensures { OnOk result (reader_of self.new
            ≡ tokens.cdata_read (bracket_count self.old.brackets) c (reading_of
            self.old.reading)) }
    {
        if c == ']' {
            return self.bracket(c);
        }
        if c == '>' && matches!(self.brackets, Brackets::Two) {
            self.state = State::Data;
            return Ok(());
        }
        self.reading.emit_brackets(self.brackets)?;
        self.reading.emit_char(c)?;
        self.stay_in_cdata(Brackets::None);
        Ok(())
    }
}
