//! The writer to which css values append their texts and pass their warnings.

ghost use Rattle.std.specs.Prelude.{◌≡◌, ◌<◌, ◌≤◌, [], ◌∷◌, ◌++◌, OnOk, OnErr, IsTrue, chars, take, drop, length, string_bytes};
ghost use Rattle.std.specs.Str.{IsUtf8};
ghost use Rattle.html_names_core.specs.{Names.{is_ascii}, Texts.{text_view}};
ghost use Rattle.html_values_css.specs.{Quantities.{IsQuantity, fixed_text}, Sink.{AddsAtMost, TakesWarning}};
ghost use Rattle.html_values_css.specs.Writer.{writer_state, empty, Emits, text_of};

use crate::fixed::fixed;
use crate::sink::{Warning, WarningSink};
use crate::to_css::ToCss;
use std::alloc::{AllocError, Global};

/// A growing text of css, and the sink of its warnings.
///
/// After a call that fails, the text and the warnings still begin with what they had before.
#[derive(Drop)]
pub struct CssWriter<S> {
    pub(crate) text: String,
    pub(crate) sink: S,
    pub(crate) failed: bool,
}

impl<S: WarningSink> CssWriter<S> {
    /// Creates a writer with an empty text.
    #[tactic(auto, using(std::proofs::StrCases::chars_of_empty))]
    pub fn new(alloc: Global, sink: S) -> CssWriter<S>
        ensures { writer_state result ≡ empty sink }
    {
        CssWriter {
            text: String::new(alloc),
            sink,
            failed: false,
        }
    }

    /// Returns the text so far.
    pub fn text(&self) -> &str
        ensures { chars result.now ≡ text_of self.now }
    {
        self.text.as_str()
    }

    /// Returns whether `fail` was called.
    pub fn failed(&self) -> bool
        ensures { result ≡ self.now.failed }
    {
        self.failed
    }

    /// Appends a text as it is.
    pub fn write(&mut self, text: &str) -> Result<(), AllocError>
        ensures { Emits (TakesWarning S.warnings S.borrow S.emit_gives) result
            (writer_state self.old) (writer_state self.new) (chars text.now) [] }
    {
        self.text.push_str(text)
    }

    #[tactic(auto, using(html_names_core::proofs::Lists::chars_ascii))]
    pub(crate) fn write_ascii(&mut self, text: &str) -> Result<(), AllocError>
        requires { IsTrue (is_ascii text.now) }
        ensures { Emits (TakesWarning S.warnings S.borrow S.emit_gives) result
            (writer_state self.old) (writer_state self.new) text.now [] }
    {
        self.write(text)
    }

    #[tactic(auto, using(crate::proofs::Emitting::nothing_yet))]
    pub(crate) fn write_fixed(&mut self, millionths: i64, decimals: u32) -> Result<(), AllocError>
        requires few { decimals < 5 }
        requires quantity { IsQuantity millionths }
        ensures { Emits (TakesWarning S.warnings S.borrow S.emit_gives) result
            (writer_state self.old) (writer_state self.new) (fixed_text decimals millionths) [] }
    {
        let text = fixed(*self.text.allocator(), millionths, decimals)?;
        self.write(text.as_str())
    }

    /// Appends a value's text.
    pub fn emit<T: ToCss>(&mut self, value: &T) -> Result<(), AllocError>
        ensures { Emits (TakesWarning S.warnings S.borrow S.emit_gives) result
            (writer_state self.old) (writer_state self.new) (T.text value.now) (T.warnings value.now) }
    {
        value.emit(self)
    }

    /// Passes a warning to the sink, and sets `failed`.
    pub fn fail(&mut self, warning: Warning) -> Result<(), AllocError>
        ensures emits { Emits (TakesWarning S.warnings S.borrow S.emit_gives) result
            (writer_state self.old) (writer_state self.new) [] (warning ∷ []) }
        ensures warns { AddsAtMost (S.warnings self.old.sink) (S.warnings self.new.sink) warning }
        ensures gives { S.emit_gives self.old.sink warning result self.new.sink }
    {
        self.sink.emit(warning)?;
        self.failed = true;
        Ok(())
    }

    pub(crate) fn insert(&mut self, at: usize, text: &str) -> Result<(), AllocError>
        requires seam { ∥ IsUtf8 (take at (string_bytes self.old.text)) ∥₁ }
        requires within { at ≤ length (string_bytes self.old.text) }
        ensures ok { OnOk result (string_bytes self.new.text ≡ take at (string_bytes self.old.text)
            ++ (text.now ++ drop at (string_bytes self.old.text))) }
        ensures kept { OnErr result (string_bytes self.new.text ≡ string_bytes self.old.text) }
        ensures failed { self.new.failed ≡ self.old.failed }
        ensures sink { self.new.sink ≡ self.old.sink }
    {
        let _ = self.text.as_str();
        self.text.insert_str(at, text)
    }
}
