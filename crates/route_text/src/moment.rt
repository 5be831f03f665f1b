//! Texts of moments and marks.

ghost use Rattle.std.specs.Prelude.{◌≡◌, ◌≤◌, ◌<◌, ◌-◌, ◌^◌, ◌++◌, ◌⊎◌, ℕ, length, IfOk, OnOk, OnErr, IfSome, IfNone, string_bytes};
ghost use Rattle.route_model.specs.Moments.{micros_a_second, last_mark};
ghost use Rattle.route_text.specs.MomentText.{IsFraction, IsSeconds, IsTimestamp, IsInstant, IsMomentText, IsMarkText, fraction_text, moment_text};

use crate::cut::cut_at_first;
use crate::fault::BadText;
use crate::number::{read_digits, read_number, write_number};
use jiff::Timestamp;
use route_model::{Mark, Moment};
use std::alloc::AllocError;

/// Writes a moment at the end of `out`: its seconds, and where they aren't whole a point and six
/// digits. After an error the content of `out` is unspecified.
pub fn write_moment(out: &mut String, moment: Moment) -> Result<(), AllocError>
    ensures text { OnOk result (string_bytes out.new ≡ string_bytes out.old ++ moment_text moment) }
{
    write_micros(out, moment.number())
}

/// Writes a mark at the end of `out`, as a moment is written. After an error the content of `out`
/// is unspecified.
pub fn write_mark(out: &mut String, mark: Mark) -> Result<(), AllocError>
    ensures text { OnOk result (string_bytes out.new ≡ string_bytes out.old ++ moment_text mark) }
{
    write_micros(out, mark.number())
}

/// Writes a number of microseconds at the end of `out`, as a moment is written. After an error the
/// content of `out` is unspecified.
pub fn write_micros(out: &mut String, number: u64) -> Result<(), AllocError>
    ensures text { OnOk result (string_bytes out.new ≡ string_bytes out.old ++ moment_text number) }
{
    write_number(out, number / Moment::SECOND)?;
    write_fraction(out, number % Moment::SECOND)
}

/// Writes a point and six digits at the end of `out`, or nothing in a whole second.
fn write_fraction(out: &mut String, micros: u64) -> Result<(), AllocError>
    ensures text { OnOk result (string_bytes out.new ≡ string_bytes out.old ++ fraction_text micros) }
{
    if micros == 0 {
        return Ok(());
    }
    write!(
        out,
        ".{}{}{}{}{}{}",
        micros / 100_000 % 10,
        micros / 10_000 % 10,
        micros / 1_000 % 10,
        micros / 100 % 10,
        micros / 10 % 10,
        micros % 10
    )
}

/// The moment that the text writes: a number of seconds, which may have a point and 1 to 6 digits
/// after it, or a timestamp of a whole microsecond, as `2024-01-01T00:00:00.5Z`, that is read by
/// `jiff` and holds no space.
pub fn read_moment(text: &str) -> Result<Moment, BadText>
    ensures found { IfOk result (IsMomentText text.now) }
    ensures none { OnErr result ((moment : ℕ) → ¬ (IsMomentText text.now moment)) }
{
    let number = read_instant(text, Moment::LAST)?;
    Moment::new(number).ok_or(BadText)
}

/// The mark that the text writes: seconds or a timestamp, as of a moment.
pub fn read_mark(text: &str) -> Result<Mark, BadText>
    ensures found { IfOk result (IsMarkText text.now) }
    ensures none { OnErr result ((mark : ℕ) → ¬ (IsMarkText text.now mark)) }
{
    let number = read_instant(text, Mark::LAST)?;
    Mark::new(number).ok_or(BadText)
}

/// The microseconds that the text writes, at most `last`.
fn read_instant(text: &str, last: u64) -> Result<u64, BadText>
    requires { last ≤ last_mark }
    ensures found { IfOk result (IsInstant last text.now) }
    ensures none { OnErr result ((moment : ℕ) → ¬ (IsInstant last text.now moment)) }
{
    if let Ok(moment) = read_seconds(text, last) {
        return Ok(moment);
    }
    match read_timestamp(text) {
        Some(moment) if moment <= last => Ok(moment),
        _ => Err(BadText),
    }
}

/// The microseconds, at most `last`, that the text writes as seconds.
fn read_seconds(text: &str, last: u64) -> Result<u64, BadText>
    requires { last ≤ last_mark }
    ensures found { IfOk result (IsSeconds text.now) }
    ensures in_range { IfOk result (λ moment. moment ≤ last) }
    ensures none { OnErr result ((moment : ℕ) → moment ≤ last → ¬ (IsSeconds text.now moment)) }
{
    let Some((whole, digits)) = cut_at_first(text, '.') else {
        let second = read_number(text, last / Moment::SECOND)?;
        return Ok(second * Moment::SECOND);
    };
    let micros = read_fraction(digits)?;
    let second = read_number(whole, last / Moment::SECOND)?;
    let moment = second * Moment::SECOND + micros;
    if last < moment {
        return Err(BadText);
    }
    Ok(moment)
}

/// The microseconds that digits after a point write.
fn read_fraction(digits: &str) -> Result<u64, BadText>
    ensures found { IfOk result (IsFraction digits.now) }
    ensures within { IfOk result (λ micros. micros < micros_a_second) }
    ensures none { OnErr result ((micros : ℕ) → ¬ (IsFraction digits.now micros)) }
{
    let Some(unit) = unit_of(digits.len()) else {
        return Err(BadText);
    };
    let value = read_digits(digits)?;
    Ok(value * unit)
}

/// How many microseconds one in the last of this number of digits after a point counts; none if there are no digits or more than six.
fn unit_of(digits: usize) -> Option<u64>
    ensures unit { IfSome result (λ unit. unit ≡ 10 ^ (6 - digits)) }
    ensures some { IfSome result (λ unit. 1 ≤ digits) }
    ensures few { IfSome result (λ unit. digits ≤ 6) }
    ensures none { IfNone result ((digits ≡ 0) ⊎ (6 < digits)) }
{
    match digits {
        1 => Some(100_000),
        2 => Some(10_000),
        3 => Some(1_000),
        4 => Some(100),
        5 => Some(10),
        6 => Some(1),
        _ => None,
    }
}

/// The microsecond that a timestamp writes.
fn read_timestamp(text: &str) -> Option<u64>
    ensures found { IfSome result (IsTimestamp text.now) }
    ensures none { IfNone result ((moment : ℕ) → ¬ (IsTimestamp text.now moment)) }
{
    if text.as_bytes().contains(&b' ') {
        return None;
    }
    let Ok(timestamp) = text.parse::<Timestamp>() else {
        return None;
    };
    if timestamp.as_nanosecond() % 1_000 != 0 {
        return None;
    }
    u64::try_from(timestamp.as_microsecond()).ok()
}
