//! Dates and times of day without a time zone, and those of them that have a text.

ghost use Rattle.std.specs.Prelude.{◌≡◌, ◌++◌, OnOk, IsTrue, IsFalse, IfOk, IfErr, ◌<◌};
ghost use Rattle.html_names_core.specs.Texts.{text_view};
ghost use Rattle.html_values.specs.AttrTexts.{date_text, time_text, seconds_text, has_year, year_fits};
ghost use Rattle.html_values_css.specs.declared.cast_fault.CastFault.TheVariants.{YearRange};

use crate::into_attr::IntoAttr;
use html_names_core::text_writer::TextWriter;
use html_values_css::CastFault;
use jiff::civil::{Date, DateTime, Time};
use std::alloc::{AllocError, Global};

/// A date, a time of day, or both, without a time zone: the civil values of `jiff`.
#[derive(Clone, Copy, Debug, PartialEq, Eq)]
pub enum Moment {
    /// A day of the calendar.
    Date(Date),
    /// A time of day.
    Time(Time),
    /// A time on a day.
    DateTime(DateTime),
}

/// A moment that has a text: its year, if any, is from 1 to 9999.
///
/// The text is `2024-02-09`, `08:05`, `08:05:30` if there are seconds, or both with a `T` between
/// them (HTML Standard 2.3.5); it omits parts of a second.
#[derive(Clone, Copy, Debug, PartialEq, Eq)]
pub struct Datetime {
    moment: Moment,
    ghost in_years: { IsTrue (has_year moment) },
}

impl Moment {
    /// Returns whether the year, if any, is from 1 to 9999.
    fn has_year(&self) -> bool
        ensures { result ≡ has_year self.now }
    {
        match self {
            Moment::Date(date) => is_year(date.year()),
            Moment::Time(_) => true,
            Moment::DateTime(both) => is_year(both.year()),
        }
    }
}

impl Datetime {
    /// Returns the moment, unless its year is outside 1 to 9999.
    pub fn new(moment: Moment) -> Result<Datetime, CastFault>
        ensures ok { IfOk result (λ made. (made.moment ≡ moment) × IsTrue (has_year moment)) }
        ensures fault { IfErr result (λ fault. (fault ≡ YearRange) × IsFalse (has_year moment)) }
    {
        if moment.has_year() {
            Ok(Datetime { moment })
        } else {
            Err(CastFault::YearRange)
        }
    }
}

/// Returns whether a year is from 1 to 9999.
fn is_year(year: i16) -> bool
    ensures { result ≡ year_fits year }
{
    (1..=9999).contains(&year)
}

fn push_date(text: &mut TextWriter, date: &Date) -> Result<(), AllocError>
    requires { IsTrue (year_fits date.now.year) }
    ensures { OnOk result (text.new ≡ text.old ++ date_text date.now) }
{
    let year = date.year().unsigned_abs();
    text.push_two_digits((year / 100) as u8)?;
    text.push_two_digits((year % 100) as u8)?;
    text.push_ascii("-")?;
    text.push_two_digits(date.month().unsigned_abs())?;
    text.push_ascii("-")?;
    text.push_two_digits(date.day().unsigned_abs())
}

fn push_time(text: &mut TextWriter, time: &Time) -> Result<(), AllocError>
    ensures { OnOk result (text.new ≡ text.old ++ time_text time.now) }
{
    text.push_two_digits(time.hour().unsigned_abs())?;
    text.push_ascii(":")?;
    text.push_two_digits(time.minute().unsigned_abs())?;
    push_seconds(text, time.second().unsigned_abs())
}

/// Appends seconds, unless they are zero.
fn push_seconds(text: &mut TextWriter, seconds: u8) -> Result<(), AllocError>
    requires { seconds < 100 }
    ensures { OnOk result (text.new ≡ text.old ++ seconds_text seconds) }
{
    if seconds == 0 {
        return Ok(());
    }
    text.push_ascii(":")?;
    text.push_two_digits(seconds)
}

impl IntoAttr for Datetime {
    ghost use Rattle.html_values.specs.AttrTexts.{moment_text};

    ghost attr_text = { λ d. moment_text d.moment };

    fn into_attr(&self, alloc: Global) -> Result<String, AllocError> {
        let mut text = TextWriter::new(alloc);
        match &self.moment {
            Moment::Date(date) => push_date(&mut text, date)?,
            Moment::Time(time) => push_time(&mut text, time)?,
            Moment::DateTime(both) => {
                push_date(&mut text, &both.date())?;
                text.push_ascii("T")?;
                push_time(&mut text, &both.time())?;
            }
        }
        Ok(text.into_string())
    }
}
