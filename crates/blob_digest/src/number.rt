//! Decimal numbers.
ghost use Rattle.std.specs.Prelude.{◌≡◌, ◌<◌, ◌^◌, min, true, IfSome, MatchOption};
ghost use Rattle.std.specs.Char.{is_ascii_digit};
ghost use Rattle.std.specs.List.{list_all};
ghost use Rattle.std.specs.Str.Parse.{digits_value};
ghost use Rattle.blob_digest.specs.Ranges.{IsNoNumber, IsNumber, is_digits, number_of};

/// 2^63, which is above every accepted number.
const LIMIT: u64 = 9_223_372_036_854_775_808;

/// Returns whether each byte is a decimal digit.
fn all_digits(text: &[u8]) -> bool
    ensures { result ≡ list_all is_ascii_digit text.now }
{
    text.iter().all(|c| c.is_ascii_digit())
}

/// Returns whether the text is one or more decimal digits.
fn is_number(text: &[u8]) -> bool
    ensures { result ≡ is_digits text.now }
{
    let digits = all_digits(text);
    !text.is_empty() && digits
}

/// Returns the value of the digits, or 2^63 if the value is greater.
fn capped(text: &[u8]) -> u64
    requires { list_all is_ascii_digit text.now ≡ true }
    ensures { result ≡ min (digits_value 10 text.now) (2 ^ 63) }
{
    let mut value = 0u64;
    for c in text {
        let digit = u64::from(c.saturating_sub(b'0'));
        value = value.saturating_mul(10).saturating_add(digit).min(LIMIT);
    }
    value
}

/// Parses a number below 2^63: one or more decimal digits, with leading zeros allowed.
///
/// It returns `None` for any other text.
///
/// # Cost
///
/// Each byte is read at most twice.
///
/// # Memory
///
/// The call does not allocate.
pub fn decimal(text: &[u8]) -> Option<u64>
    ensures number { MatchOption result (IsNoNumber text.now) (λ n. IsNumber text.now n) }
    ensures value { result ≡ number_of text.now }
    ensures small { IfSome result (λ n. n < 2 ^ 63) }
{
    if !is_number(text) {
        return None;
    }
    let value = capped(text);
    if value < LIMIT { Some(value) } else { None }
}
