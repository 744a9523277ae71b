//! Function calls in css, written one argument after the other.

ghost use Rattle.std.specs.{Borrow.{sem}, Prelude.{◌≡◌, ◌++◌, codes, chars, [], true, false, IfOk, Ok}};
ghost use Rattle.html_values_css.specs.{Call.{separator_text, before_argument, writer_rests}, Sink.{TakesWarning}};
ghost use Rattle.html_values_css.specs.Writer.{writer_state, Emits};

use crate::sink::WarningSink;
use crate::to_css::ToCss;
use crate::writer::CssWriter;
use std::alloc::AllocError;

/// The text between two arguments.
#[derive(Clone, Copy, Debug, PartialEq, Eq)]
pub enum Separator {
    /// ` `
    Space,
    /// ` / `
    Slash,
}

impl Separator {
    fn text(self) -> &'static str
        ensures { result.now ≡ separator_text self }
    {
        match self {
            Separator::Space => " ",
            Separator::Slash => " / ",
        }
    }
}

/// A call whose arguments are still being written. Without `finish` it lacks its closing
/// parenthesis.
#[derive(Drop)]
pub struct Call<'a, S> {
    out: &'a mut CssWriter<S>,
    separator: Separator,
    has_argument: bool,
}

impl<S: WarningSink> CssWriter<S> {
    /// Begins a call with that name, whose arguments `separator` separates.
    pub fn call(&mut self, name: &str, separator: Separator) -> Result<Call<'_, S>, AllocError>
        ensures same_writer { IfOk result (λ c. c.out.ghost_name ≡ self.entry.ghost_name) }
        ensures opened { IfOk result (λ c. Emits (TakesWarning S.warnings S.borrow S.emit_gives) (Ok tt)
            (writer_state self.old) (writer_state c.out.now) (chars name.now ++ codes "(") []
            × (c.separator ≡ separator) × (c.has_argument ≡ false)) }
        ensures* refused { sem 𝓛 (writer_rests S.row self.entry result) }
    {
        match self.open(name) {
            Ok(()) => Ok(Call {
                out: self,
                separator,
                has_argument: false,
            }),
            Err(refused) => Err(refused),
        }
    }

    fn open(&mut self, name: &str) -> Result<(), AllocError>
        ensures { Emits (TakesWarning S.warnings S.borrow S.emit_gives) result
            (writer_state self.old) (writer_state self.new) (chars name.now ++ codes "(") [] }
    {
        self.write(name)?;
        self.write_ascii("(")
    }
}

impl<S: WarningSink> Call<'_, S> {
    /// Adds an argument, after the call's own separator unless it is the first.
    pub fn arg<T: ToCss>(&mut self, value: &T) -> Result<(), AllocError>
        ensures same_writer { self.new.out.ghost_name ≡ self.old.out.ghost_name }
        ensures separator { self.new.separator ≡ self.old.separator }
        ensures begun { self.new.has_argument ≡ true }
        ensures emits { Emits (TakesWarning S.warnings S.borrow S.emit_gives) result
            (writer_state self.old.out.now) (writer_state self.new.out.now)
            (before_argument self.old.has_argument self.old.separator ++ T.text value.now)
            (T.warnings value.now) }
    {
        self.arg_with(value, self.separator)
    }

    /// Adds an argument, after that separator unless it is the first.
    pub fn arg_with<T: ToCss>(&mut self, value: &T, separator: Separator) -> Result<(), AllocError>
        ensures same_writer { self.new.out.ghost_name ≡ self.old.out.ghost_name }
        ensures separator { self.new.separator ≡ self.old.separator }
        ensures begun { self.new.has_argument ≡ true }
        ensures emits { Emits (TakesWarning S.warnings S.borrow S.emit_gives) result
            (writer_state self.old.out.now) (writer_state self.new.out.now)
            (before_argument self.old.has_argument separator ++ T.text value.now)
            (T.warnings value.now) }
    {
        let had = self.has_argument;
        self.has_argument = true;
        if had {
            self.out.write_ascii(separator.text())?;
        }
        value.emit(self.out)
    }

    /// Closes the call.
    pub fn finish(self) -> Result<(), AllocError>
        ensures { Emits (TakesWarning S.warnings S.borrow S.emit_gives) result (writer_state self.entry.out.now)
            (writer_state self.exit.0.now) (codes ")") [] }
    {
        self.out.write_ascii(")")
    }
}
