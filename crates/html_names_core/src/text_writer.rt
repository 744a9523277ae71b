//! A writer that appends characters, texts and numbers to a growing text.

ghost use Rattle.std.specs.{Fmt.{decimal, digits}, Prelude.{◌≡◌, ◌++◌, ◌∷◌, [], ◌<◌, OnOk, OnErr, chars, string_bytes, IsTrue, false}};
ghost use Rattle.html_names_core.specs.{Names.{is_ascii}, Texts.{two_digits}};

use std::alloc::{AllocError, Global};
use std::marker::Model;

/// A writer of texts for the crates that build on this one. Users of names do not need it.
///
/// In contracts it is the list of its characters. Each method that appends fails only if an
/// allocation fails. The text is then unchanged, except after `push_decimal` and `push_hex`, which
/// may leave any characters.
#[derive(Drop)]
pub struct TextWriter {
    text: String,
}

impl Model for TextWriter {
    ghost use Rattle.std.specs.Prelude.{ℕ, List, chars, string_bytes};

    ghost Value = { List ℕ };

    ghost view = { λ writer. chars (string_bytes writer.text) };
}

impl TextWriter {
    /// Creates a writer with an empty text.
    #[tactic(auto, using(std::proofs::StrCases::chars_of_empty))]
    pub fn new(alloc: Global) -> TextWriter
        ensures { result ≡ [] }
    {
        TextWriter {
            text: String::new(alloc),
        }
    }

    /// Appends a character.
    pub fn push(&mut self, c: char) -> Result<(), AllocError>
        ensures added { OnOk result (self.new ≡ self.old ++ c ∷ []) }
        ensures kept { OnErr result (self.new ≡ self.old) }
    {
        self.text.push(c)?;
        Ok(())
    }

    /// Appends a text.
    pub fn push_str(&mut self, text: &str) -> Result<(), AllocError>
        ensures added { OnOk result (self.new ≡ self.old ++ chars text.now) }
        ensures kept { OnErr result (self.new ≡ self.old) }
    {
        self.text.push_str(text)?;
        Ok(())
    }

    /// Appends an ASCII text.
    #[tactic(auto, using(crate::proofs::Lists::chars_ascii))]
    pub fn push_ascii(&mut self, text: &str) -> Result<(), AllocError>
        requires { IsTrue (is_ascii text.now) }
        ensures added { OnOk result (self.new ≡ self.old ++ text.now) }
        ensures kept { OnErr result (self.new ≡ self.old) }
    {
        self.push_str(text)
    }

    /// Appends a number in decimal digits.
    pub fn push_decimal(&mut self, n: u64) -> Result<(), AllocError>
        ensures { OnOk result (self.new ≡ self.old ++ decimal n) }
    {
        write!(self.text, "{n}")?;
        Ok(())
    }

    /// Appends a number below a hundred in two decimal digits.
    pub fn push_two_digits(&mut self, n: u8) -> Result<(), AllocError>
        requires { n < 100 }
        ensures added { OnOk result (self.new ≡ self.old ++ two_digits n) }
        ensures kept { OnErr result (self.new ≡ self.old) }
    {
        self.text.reserve(2)?;
        self.text.push(char::from(b'0' + n / 10))?;
        self.text.push(char::from(b'0' + n % 10))?;
        Ok(())
    }

    /// Appends a number in lowercase hexadecimal digits.
    pub fn push_hex(&mut self, n: u32) -> Result<(), AllocError>
        ensures { OnOk result (self.new ≡ self.old ++ digits 16 false n) }
    {
        write!(self.text, "{n:x}")?;
        Ok(())
    }

    /// Returns the text so far.
    pub fn as_str(&self) -> &str
        ensures { chars result.now ≡ self.now }
    {
        self.text.as_str()
    }

    /// Consumes the writer and returns the text.
    pub fn into_string(self) -> String
        ensures { chars (string_bytes result) ≡ self }
    {
        self.text
    }
}
