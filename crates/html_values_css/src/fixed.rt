//! Rounds millionths to the decimals of a css text.

ghost use Rattle.std.specs.Prelude.{◌≡◌, ◌++◌, ◌<◌, ◌^◌, IfOk, OnOk, string_bytes};
ghost use Rattle.html_values_css.specs.Quantities.{fixed_text, fraction_digits, sign_text, point_text, nearest_hundreds};

use std::alloc::{AllocError, Global};

/// Formats a number of millionths, rounded to whole hundreds of them, half away from zero. The last
/// `decimals` digits of the hundreds are written after the point, without trailing zeros.
#[tactic(auto, using(crate::proofs::Digits::append_steps))]
pub(crate) fn fixed(alloc: Global, millionths: i64, decimals: u32) -> Result<String, AllocError>
    requires few { decimals < 5 }
    ensures { IfOk result (λ text. string_bytes text ≡ fixed_text decimals millionths) }
{
    let hundreds = round(millionths);
    let one = power_of_ten(decimals);
    let whole = hundreds / one;
    let mut text = String::new(alloc);
    push_sign(&mut text, millionths, hundreds)?;
    write!(text, "{whole}")?;
    push_point(&mut text, hundreds % one, decimals)?;
    Ok(text)
}

fn round(millionths: i64) -> u64
    ensures { result ≡ nearest_hundreds millionths }
{
    (millionths.unsigned_abs() + 50) / 100
}

#[tactic(auto, using(crate::proofs::Digits::power_bound))]
fn power_of_ten(exponent: u32) -> u64
    requires { exponent < 5 }
    ensures value { result ≡ 10 ^ exponent }
    ensures above { 0 < result }
{
    10u64.pow(exponent)
}

fn push_sign(text: &mut String, millionths: i64, hundreds: u64) -> Result<(), AllocError>
    ensures { OnOk result (string_bytes text.new
        ≡ string_bytes text.old ++ sign_text millionths hundreds) }
{
    if millionths < 0 && hundreds > 0 {
        text.push('-')?;
    }
    Ok(())
}

fn push_point(text: &mut String, rest: u64, decimals: u32) -> Result<(), AllocError>
    requires few { decimals < 5 }
    requires below { rest < 10 ^ decimals }
    ensures { OnOk result (string_bytes text.new
        ≡ string_bytes text.old ++ point_text decimals rest) }
{
    if rest == 0 {
        return Ok(());
    }
    text.push('.')?;
    push_fraction(text, rest, decimals)
}

/// Appends `rest` as `decimals` digits after the point, without trailing zeros.
fn push_fraction(text: &mut String, rest: u64, decimals: u32) -> Result<(), AllocError>
    requires few { decimals < 5 }
    requires below { rest < 10 ^ decimals }
    ensures { OnOk result (string_bytes text.new
        ≡ string_bytes text.old ++ fraction_digits decimals rest) }
{
    let mut rest = rest;
    let mut left = decimals;
    while left > 0 && rest > 0 {
        left -= 1;
        let unit = power_of_ten(left);
        text.push(char::from(b'0' + (rest / unit) as u8))?;
        rest %= unit;
    }
    Ok(())
}
