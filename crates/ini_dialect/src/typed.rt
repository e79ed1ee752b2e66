//! Values with types: what the text of a value says as a bool, a number, a size or a span of time. This file
//! knows std's parsers and the bytes of a text, and nothing of documents.
ghost use Rattle.std.specs.Prelude.{◌≡◌, ◌*◌, ◌^◌, ◌<◌, ◌≤◌, ℕ, ℤ, pos};
ghost use Rattle.std.specs.Prelude.{IfNone, IfSome};
ghost use Rattle.std.specs.Char.{is_ascii_alphabetic};
ghost use Rattle.std.specs.List.{position_or_len};
ghost use Rattle.std.specs.Str.{str_eq_ignore_ascii_case};
ghost use Rattle.std.specs.Prelude.{◌*ℤ◌, FitsSigned};
ghost use Rattle.std.specs.Int.{w64};
ghost use Rattle.std.specs.Duration.{as_nanos};
ghost use Rattle.std.specs.Float.Ieee.{binary64};
ghost use Rattle.std.specs.Float.Parse.{parse_float};
ghost use Rattle.std.specs.Str.Parse.{IsNumeral, digits_value, signed_digits_value};
ghost use Rattle.std.specs.Str.Parse.{without_leading_plus, without_leading_sign};
ghost use Rattle.ini_dialect.specs.Typed.{Counts, CountsSigned, bool_of, named, number_part, sizes};
ghost use Rattle.ini_dialect.specs.Typed.{spans, unit_part};

use std::time::Duration;

/// The bool that the text says: `true`, `yes`, `on` and `1`, or `false`, `no`, `off` and `0`, in any case.
pub fn as_bool(text: &str) -> Option<bool>
    ensures { result ≡ bool_of text.now }
{
    if is_word(text, "true") || is_word(text, "yes") || is_word(text, "on") || is_word(text, "1") {
        Some(true)
    } else if is_word(text, "false")
        || is_word(text, "no")
        || is_word(text, "off")
        || is_word(text, "0")
    {
        Some(false)
    } else {
        None
    }
}

/// The whole number that the text says: digits, which may have a sign, and `k`, `m` or `g` in either case
/// for 1,024 and its powers. `None` too where it doesn't fit.
pub fn as_integer(text: &str) -> Option<i64>
    ensures value { IfSome result (CountsSigned sizes text.now) }
    ensures none { IfNone result ((n : ℤ) → FitsSigned w64 n → CountsSigned sizes text.now n → ⊥) }
{
    let (number, unit) = split_unit(text);
    let factor = size_of_unit(unit)?;
    times_signed(number, factor)
}

/// The size that the text says, in bytes: as `as_integer`, without a minus.
pub fn as_size(text: &str) -> Option<u64>
    ensures value { IfSome result (Counts sizes text.now) }
    ensures none { IfNone result ((n : ℕ) → n < 2 ^ 64 → Counts sizes text.now n → ⊥) }
{
    let (number, unit) = split_unit(text);
    let factor = size_of_unit(unit)?;
    times(number, u64::from(factor))
}

/// The float that the text says, by std's parser.
pub fn as_float(text: &str) -> Option<f64>
    ensures { result ≡ parse_float binary64 text.now }
{
    text.parse::<f64>().ok()
}

/// The span of time that the text says: digits, before which a plus may stand, and one of the units `us`,
/// `ms`, `s` or `sec`, `m` or `min`, `h`, `d` and `w`, in either case; without a unit, seconds. `None` too
/// where its microseconds don't fit 64 bits.
pub fn as_duration(text: &str) -> Option<Duration>
    ensures value { IfSome result
        (λ span. (n : ℕ) × (n < 2 ^ 64) × Counts spans text.now n × (as_nanos span ≡ n * 1000)) }
    ensures none { IfNone result ((n : ℕ) → n < 2 ^ 64 → Counts spans text.now n → ⊥) }
{
    let (number, unit) = split_unit(text);
    let factor = span_of_unit(unit)?;
    let number = times(number, factor)?;
    Some(Duration::from_micros(number))
}

// Whether the text is the word, in any case.
fn is_word(text: &str, word: &str) -> bool
    ensures { result ≡ str_eq_ignore_ascii_case text.now word.now }
{
    text.eq_ignore_ascii_case(word)
}

// The number and the unit.
fn split_unit(text: &str) -> (&str, &str)
    ensures number { result.0.now ≡ number_part text.now }
    ensures unit { result.1.now ≡ unit_part text.now }
{
    text.split_at(number_len(text.as_bytes()))
}

// How many bytes stand before the first letter.
fn number_len(text: &[u8]) -> usize
    ensures { result ≡ position_or_len is_ascii_alphabetic text.now }
{
    for (i, byte) in text.iter().enumerate() {
        if byte.is_ascii_alphabetic() {
            return i;
        }
    }
    text.len()
}

// What the unit of a size stands for, in bytes.
fn size_of_unit(unit: &str) -> Option<u32>
    ensures { result ≡ named unit.now sizes }
{
    if is_word(unit, "") {
        Some(1)
    } else if is_word(unit, "k") {
        Some(1024)
    } else if is_word(unit, "m") {
        Some(1_048_576)
    } else if is_word(unit, "g") {
        Some(1_073_741_824)
    } else {
        None
    }
}

// What the unit of a span of time stands for, in microseconds.
fn span_of_unit(unit: &str) -> Option<u64>
    ensures { result ≡ named unit.now spans }
{
    if is_word(unit, "us") {
        Some(1)
    } else if is_word(unit, "ms") {
        Some(1_000)
    } else if is_word(unit, "") || is_word(unit, "s") || is_word(unit, "sec") {
        Some(1_000_000)
    } else if is_word(unit, "m") || is_word(unit, "min") {
        Some(60_000_000)
    } else if is_word(unit, "h") {
        Some(3_600_000_000)
    } else if is_word(unit, "d") {
        Some(86_400_000_000)
    } else if is_word(unit, "w") {
        Some(604_800_000_000)
    } else {
        None
    }
}

// The number that the digits write, so many times.
fn times(digits: &str, factor: u64) -> Option<u64>
    requires { 0 < factor }
    ensures value { IfSome result (λ n. IsNumeral 10 (without_leading_plus digits.now)
        × (n ≡ digits_value 10 (without_leading_plus digits.now) * factor)) }
    ensures none { IfNone result (IsNumeral 10 (without_leading_plus digits.now)
        → 2 ^ 64 ≤ digits_value 10 (without_leading_plus digits.now) * factor) }
{
    let number = digits.parse::<u64>().ok()?;
    number.checked_mul(factor)
}

// The same with a sign.
fn times_signed(digits: &str, factor: u32) -> Option<i64>
    requires { 0 < factor }
    ensures value { IfSome result (λ n. IsNumeral 10 (without_leading_sign digits.now)
        × (n ≡ signed_digits_value 10 digits.now *ℤ pos factor)) }
    ensures none { IfNone result (IsNumeral 10 (without_leading_sign digits.now)
        → ¬ (FitsSigned w64 (signed_digits_value 10 digits.now *ℤ pos factor))) }
{
    let number = digits.parse::<i64>().ok()?;
    number.checked_mul(i64::from(factor))
}
