//! Sums in css, with `calc(..)` around two parts or more, and the trait of their parts.

ghost use Rattle.std.specs.{Prelude.{◌≡◌, ◌≤◌, ◌++◌, ℤ, neg_ℤ, codes, OnOk, OnErr, take, drop, length, string_bytes}, Str.{IsUtf8}};
ghost use Rattle.html_values_css.specs.Quantities.{is_zero, is_negative};

use crate::sink::WarningSink;
use crate::to_css::ToCss;
use crate::writer::CssWriter;
use std::alloc::AllocError;

/// A part of a sum.
///
/// Its law: `is_zero`, `is_negative` and `negated` refer to the same number.
///
/// A complete implementation, with the text of the part:
///
/// ```
/// ghost use Rattle.std.specs.Prelude.{neg_ℤ, refl, []};
/// ghost use Rattle.html_values.specs.Quantities.{abs_text};
///
/// use html_values::{Abs, CalcPart, CssWriter, ToCss, WarningSink};
/// use std::alloc::AllocError;
///
/// /// The space between two columns.
/// #[derive(Clone, Copy)]
/// struct Gap {
///     width: Abs,
/// }
///
/// impl ToCss for Gap {
///     ghost text = { λ gap. abs_text gap.width };
///
///     ghost warnings = { λ _. [] };
///
///     fn emit<S: WarningSink>(&self, out: &mut CssWriter<S>) -> Result<(), AllocError> {
///         self.width.emit(out)
///     }
/// }
///
/// impl CalcPart for Gap {
///     ghost number = { λ gap. gap.width };
///
///     ghost opposite = { λ gap. record { width = neg_ℤ gap.width } };
///
///     ghost negates = { λ _. refl };
///
///     fn is_zero(&self) -> bool {
///         self.width.is_zero()
///     }
///
///     fn is_negative(&self) -> bool {
///         self.width.is_negative()
///     }
///
///     fn negated(&self) -> Gap {
///         Gap {
///             width: self.width.negated(),
///         }
///     }
/// }
/// ```
pub trait CalcPart: ToCss + Drop {
    /// The number.
    ghost number: { Self → ℤ };

    /// The negated part.
    ghost opposite: { Self → Self };

    /// Returns whether the number is exactly zero.
    fn is_zero(&self) -> bool
        ensures { result ≡ is_zero (number self.now) };

    /// Returns whether the number is below zero.
    fn is_negative(&self) -> bool
        ensures { result ≡ is_negative (number self.now) };

    /// Returns the part with the negated number.
    fn negated(&self) -> Self
        ensures { result ≡ opposite self.now };

    /// The number of the negated part.
    ghost negates: { (part : Self) → number (opposite part) ≡ neg_ℤ (number part) };
}

/// The number of parts that a sum has so far.
#[derive(Clone, Copy, Debug, PartialEq, Eq)]
pub(crate) enum Parts {
    Zero,
    One,
    More,
}

impl Parts {
    ghost use Rattle.html_values_css.specs.Sums.{next, sum_end};

    fn next(self) -> Parts
        ensures { result ≡ next self }
    {
        match self {
            Parts::Zero => Parts::One,
            _ => Parts::More,
        }
    }

    fn closing(self) -> &'static str
        ensures { result.now ≡ sum_end self }
    {
        match self {
            Parts::Zero => "0",
            Parts::One => "",
            Parts::More => ")",
        }
    }
}

/// A sum whose parts are still being written. Without `finish` it lacks its closing text.
#[derive(Drop)]
pub struct Calc<'a, S> {
    pub(crate) out: &'a mut CssWriter<S>,
    pub(crate) start: usize,
    pub(crate) parts: Parts,
    ghost within: { start ≤ length (string_bytes out.now.text) },
    ghost seam: { ∥ IsUtf8 (take start (string_bytes out.now.text)) ∥₁ },
}

impl<S: WarningSink> CssWriter<S> {
    ghost use Rattle.std.specs.Prelude.{[]};
    ghost use Rattle.html_values_css.specs.{Calc.{text_before, written_from}, Sums.{Zero}, Writer.{writer_state, text_of}};

    /// Begins a sum: `calc(..)` around two parts or more, a single part alone, and `0` for none.
    /// Drops parts that are exactly zero.
    pub fn calc(&mut self) -> Calc<'_, S>
        ensures same_writer { result.out.ghost_name ≡ self.entry.ghost_name }
        ensures before { text_before result.start result.out.now ≡ text_of self.old }
        ensures nothing { written_from result.start result.out.now
            ≡ record (writer_state self.old) { text = [] } }
        ensures parts { result.parts ≡ Zero }
    {
        let start = self.text.as_str().len();
        Calc {
            out: self,
            start,
            parts: Parts::Zero,
        }
    }
}

impl<S: WarningSink> Calc<'_, S> {
    ghost use Rattle.html_values_css.specs.{Calc.{text_before, written_from, part_of}, Sink.{StartsWith, TakesWarning}};
    ghost use Rattle.html_values_css.specs.Sums.{next_parts, next_text, next_warnings, sum_end};
    ghost use Rattle.html_values_css.specs.Writer.{writer_state, text_of, Emits, SumsUp};
    ghost use Rattle.std.specs.Prelude.{[]};

    /// Adds a part, unless it is exactly zero.
    pub fn sum<T: CalcPart>(&mut self, value: &T) -> Result<(), AllocError>
        ensures same_writer { self.new.out.ghost_name ≡ self.old.out.ghost_name }
        ensures before { text_before self.new.start self.new.out.now
            ≡ text_before self.old.start self.old.out.now }
        ensures begins { StartsWith (text_of self.new.out.now)
            (text_before self.new.start self.new.out.now) }
        ensures parts { OnOk result (self.new.parts ≡ next_parts self.old.parts
            (part_of T.number T.text T.warnings T.opposite value.now)) }
        ensures adds { let part = part_of T.number T.text T.warnings T.opposite value.now in
            let old = written_from self.old.start self.old.out.now in
            SumsUp (TakesWarning S.warnings S.borrow S.emit_gives) result old
            (written_from self.new.start self.new.out.now)
            (next_text self.old.parts old.text part) (next_warnings self.old.parts part) }
    {
        if value.is_zero() {
            return Ok(());
        }
        let parts = self.parts;
        self.out.add_part(self.start, parts, value)?;
        self.parts = parts.next();
        Ok(())
    }

    /// Closes the sum: appends its closing text, if it needs one.
    pub fn finish(self) -> Result<(), AllocError>
        ensures closing { Emits (TakesWarning S.warnings S.borrow S.emit_gives) result
            (writer_state self.entry.out.now) (writer_state self.exit.0.now) (sum_end self.entry.parts) [] }
        ensures whole { let old = written_from self.entry.start self.entry.out.now in
            Emits (TakesWarning S.warnings S.borrow S.emit_gives) result
            (record old { text = text_before self.entry.start self.entry.out.now })
            (writer_state self.exit.0.now) (old.text ++ sum_end self.entry.parts) [] }
    {
        let closing = self.parts.closing();
        self.out.write_ascii(closing)
    }
}

impl<S: WarningSink> CssWriter<S> {
    ghost use Rattle.html_values_css.specs.{Calc.{written_from, KeepsFront, part_of, next_part_text, with_opening}, Sink.{TakesWarning}};
    ghost use Rattle.html_values_css.specs.{Sums.{with_part, part_warnings}, Writer.{writer_state, Emits, SumsUp}};
    ghost use Rattle.std.specs.Prelude.{[]};

    /// Adds a nonzero part to the sum that begins at `start`.
    fn add_part<T: CalcPart>(
        &mut self,
        start: usize,
        parts: Parts,
        value: &T,
    ) -> Result<(), AllocError>
        requires seam { ∥ IsUtf8 (take start (string_bytes self.old.text)) ∥₁ }
        requires within { start ≤ length (string_bytes self.old.text) }
        ensures keeps { KeepsFront start self.old self.new }
        ensures adds { let part = part_of T.number T.text T.warnings T.opposite value.now in
            let old = written_from start self.old in
            SumsUp (TakesWarning S.warnings S.borrow S.emit_gives) result old (written_from start self.new)
            (with_part parts old.text part) (part_warnings parts part) }
    {
        self.append_from(start, parts, value)?;
        self.open_sum(start, parts)
    }

    fn append_from<T: CalcPart>(
        &mut self,
        start: usize,
        parts: Parts,
        value: &T,
    ) -> Result<(), AllocError>
        requires seam { ∥ IsUtf8 (take start (string_bytes self.old.text)) ∥₁ }
        requires within { start ≤ length (string_bytes self.old.text) }
        ensures keeps { KeepsFront start self.old self.new }
        ensures emits { let part = part_of T.number T.text T.warnings T.opposite value.now in
            Emits (TakesWarning S.warnings S.borrow S.emit_gives) result (written_from start self.old)
            (written_from start self.new) (next_part_text parts part) (part_warnings parts part) }
    {
        self.append_part(parts, value)
    }

    fn append_part<T: CalcPart>(&mut self, parts: Parts, value: &T) -> Result<(), AllocError>
        ensures { let part = part_of T.number T.text T.warnings T.opposite value.now in
            Emits (TakesWarning S.warnings S.borrow S.emit_gives) result (writer_state self.old) (writer_state self.new)
            (next_part_text parts part) (part_warnings parts part) }
    {
        if parts == Parts::Zero {
            return value.emit(self);
        }
        if value.is_negative() {
            self.write_ascii(" - ")?;
            return value.negated().emit(self);
        }
        self.write_ascii(" + ")?;
        value.emit(self)
    }

    /// Inserts the opening at the start of the sum, before the second part.
    fn open_sum(&mut self, start: usize, parts: Parts) -> Result<(), AllocError>
        requires seam { ∥ IsUtf8 (take start (string_bytes self.old.text)) ∥₁ }
        requires within { start ≤ length (string_bytes self.old.text) }
        ensures keeps { KeepsFront start self.old self.new }
        ensures adds { let old = written_from start self.old in
            SumsUp (TakesWarning S.warnings S.borrow S.emit_gives) result old (written_from start self.new)
            (with_opening parts old.text) [] }
    {
        if parts == Parts::One {
            self.insert(start, "calc(")?;
        }
        Ok(())
    }
}
