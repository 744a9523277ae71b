//! Quantities in millionths of a unit: lengths in points and ems, ratios, and angles.

ghost use Rattle.std.specs.Prelude.{◌≡◌, ◌<◌, ◌↔◌, ◌++◌, ℕ, List, [], IsTrue, IsSome, IfSome, codes, neg_ℤ, refl};
ghost use Rattle.html_names_core.specs.Names.{is_ascii};
ghost use Rattle.html_values_css.specs.Quantities.{IsQuantity, fixed_text};

use crate::calc::CalcPart;
use crate::sink::WarningSink;
use crate::to_css::ToCss;
use crate::writer::CssWriter;
use std::alloc::AllocError;
use std::marker::{Model, PhantomData};

/// The greatest absolute value of a quantity, in millionths.
const MOST_MILLIONTHS: u64 = 1_000_000_000_000_000;

/// A unit of quantities.
pub trait Unit: Copy {
    /// The unit's css text.
    ghost unit_text: { List ℕ };

    /// The maximum number of decimals in a css text.
    ghost most_decimals: { ℕ };

    /// Returns the unit's css text.
    fn text() -> &'static str
        ensures text { result.now ≡ unit_text }
        ensures ascii { IsTrue (is_ascii result.now) };

    /// Returns the maximum number of decimals in a css text, which is at most 4.
    fn decimals() -> u32
        ensures value { result ≡ most_decimals }
        ensures few { result < 5 };
}

/// A number of whole millionths of a unit, with an absolute value of at most 10^15.
///
/// Its css text is the number in decimals, rounded half away from zero, and the unit.
#[derive(Clone, Copy, Debug, PartialEq, Eq, PartialOrd, Ord, Hash)]
pub struct Quantity<U> {
    millionths: i64,
    unit: PhantomData<U>,
}

/// An absolute length in points. Its css text has at most 4 decimals, and then `pt`.
pub type Abs = Quantity<Points>;

/// A length relative to the font size, in ems. Its css text has at most 4 decimals, and then `em`.
pub type Em = Quantity<Ems>;

/// A ratio. Its css text is a percentage with at most 2 decimals.
pub type Ratio = Quantity<Whole>;

/// An angle in degrees. Its css text has at most 4 decimals, and then `deg`.
pub type Angle = Quantity<Degrees>;

/// The unit of absolute lengths: a 72nd of an inch.
#[derive(Clone, Copy, Debug, PartialEq, Eq, PartialOrd, Ord, Hash)]
pub struct Points;

impl Unit for Points {
    ghost unit_text = { codes "pt" };

    ghost most_decimals = { 4 };

    fn text() -> &'static str {
        "pt"
    }

    fn decimals() -> u32 {
        4
    }
}

/// The unit of lengths relative to the font size: the font size.
#[derive(Clone, Copy, Debug, PartialEq, Eq, PartialOrd, Ord, Hash)]
pub struct Ems;

impl Unit for Ems {
    ghost unit_text = { codes "em" };

    ghost most_decimals = { 4 };

    fn text() -> &'static str {
        "em"
    }

    fn decimals() -> u32 {
        4
    }
}

/// The unit of ratios: one.
#[derive(Clone, Copy, Debug, PartialEq, Eq, PartialOrd, Ord, Hash)]
pub struct Whole;

impl Unit for Whole {
    ghost unit_text = { codes "%" };

    ghost most_decimals = { 2 };

    fn text() -> &'static str {
        "%"
    }

    fn decimals() -> u32 {
        2
    }
}

/// The unit of angles: a 360th of a turn.
#[derive(Clone, Copy, Debug, PartialEq, Eq, PartialOrd, Ord, Hash)]
pub struct Degrees;

impl Unit for Degrees {
    ghost unit_text = { codes "deg" };

    ghost most_decimals = { 4 };

    fn text() -> &'static str {
        "deg"
    }

    fn decimals() -> u32 {
        4
    }
}

impl<U> Model for Quantity<U> {
    ghost use Rattle.std.specs.Prelude.{ℤ};
    ghost use Rattle.html_values_css.specs.Quantities.{IsQuantity};

    ghost Value = { ℤ };

    ghost view = { λ q. q.millionths };

    ghost inverse = { λ z. record { millionths = z; unit = record {} } };

    ghost invariant = { λ q. IsQuantity q.millionths };
}

impl<U> Quantity<U> {
    /// Creates a quantity of that many millionths of the unit. Use
    /// [`try_from_millionths`](Quantity::try_from_millionths) for numbers without a known bound.
    pub fn from_millionths(millionths: i64) -> Quantity<U>
        requires { IsQuantity millionths }
        ensures { result ≡ millionths }
    {
        Quantity {
            millionths,
            unit: PhantomData,
        }
    }

    /// Creates a quantity of that many millionths of the unit, or returns `None` if their absolute
    /// value exceeds 10^15.
    ///
    /// ```
    /// use html_values::Abs;
    ///
    /// let width = Abs::try_from_millionths(1_500_000); // 1.5 points
    /// assert!(rt; width.is_some());
    /// assert!(rt; Abs::try_from_millionths(i64::MAX).is_none());
    /// ```
    pub fn try_from_millionths(millionths: i64) -> Option<Quantity<U>>
        ensures within { IsSome result ↔ IsQuantity millionths }
        ensures value { IfSome result (λ made. made ≡ millionths) }
    {
        if millionths.unsigned_abs() <= MOST_MILLIONTHS {
            Some(Quantity::from_millionths(millionths))
        } else {
            None
        }
    }

    /// Returns the number of millionths of the unit.
    pub fn millionths(self) -> i64
        ensures value { result ≡ self }
        ensures bounded { IsQuantity result }
    {
        self.millionths
    }
}

impl<U: Unit> ToCss for Quantity<U> {
    ghost text = { λ z. fixed_text U.most_decimals z ++ U.unit_text };

    ghost warnings = { λ _. [] };

    fn emit<S: WarningSink>(&self, out: &mut CssWriter<S>) -> Result<(), AllocError> {
        out.write_fixed(self.millionths, U::decimals())?;
        out.write_ascii(U::text())
    }
}

impl<U: Unit> CalcPart for Quantity<U> {
    ghost number = { λ z. z };

    ghost opposite = { neg_ℤ };

    ghost negates = { λ _. refl };

    fn is_zero(&self) -> bool {
        self.millionths == 0
    }

    fn is_negative(&self) -> bool {
        self.millionths < 0
    }

    fn negated(&self) -> Quantity<U> {
        Quantity {
            millionths: -self.millionths,
            unit: PhantomData,
        }
    }
}
