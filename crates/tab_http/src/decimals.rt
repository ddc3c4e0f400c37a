//! Decimal digits: the value of a Content-Length (RFC 9110, section 8.6).
ghost use Rattle.std.specs.Prelude.{◌≡◌, ◌≢◌, ℕ, ◌<◌, ◌^◌, decimal, IfSome, IsNone};
ghost use Rattle.tab_http.specs.Headers.{decimal_value};

use std::str;

/// The number of 64 bits whose decimal the text is, without a sign and without a leading zero but in `0`, so each number has
/// one text.
pub fn decimal_value(text: &[u8]) -> Option<u64>
    ensures value { result ≡ decimal_value text.now }
    ensures some { IfSome result (λ number. text.now ≡ decimal number) }
    ensures none { IsNone result → (number : ℕ) → number < 2 ^ 64 → text.now ≢ decimal number }
{
    read_decimal(text)
}

fn read_decimal(digits: &[u8]) -> Option<u64>
    ensures some { IfSome result (λ number. digits.now ≡ decimal number) }
    ensures small { IfSome result (λ number. number < 2 ^ 64) }
    ensures none { IsNone result → (number : ℕ) → number < 2 ^ 64 → digits.now ≢ decimal number }
{
    let (first, rest) = digits.split_first()?;
    if *first == b'+' || *first == b'0' && !rest.is_empty() {
        return None;
    }
    let Ok(text) = str::from_utf8(digits) else {
        return None;
    };
    text.parse().ok()
}
