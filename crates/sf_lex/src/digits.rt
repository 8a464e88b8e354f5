//! Digits, and the number that they write.

ghost use Rattle.std.specs.Prelude.{◌≡◌, ◌≤◌, min, IsTrue};
ghost use Rattle.std.specs.List.{list_all};
ghost use Rattle.sf_lex.specs.Number.{is_digit, number_of};

/// One more than the greatest number that a call answers.
pub const ABOVE_LIMITS: u128 = 18_446_744_073_709_551_616;

/// Whether all bytes are digits.
pub fn are_digits(bytes: &[u8]) -> bool
    ensures { result ≡ list_all is_digit bytes.now }
{
    bytes.iter().all(|byte| b'0' <= *byte && *byte <= b'9')
}

/// The number that the digits write, or `ABOVE_LIMITS` where it is larger.
pub fn number(digits: &[u8]) -> u128
    requires { IsTrue (list_all is_digit digits.now) }
    ensures value { result ≡ min (number_of digits.now) ABOVE_LIMITS }
    ensures bound { result ≤ ABOVE_LIMITS }
{
    let mut number = 0;
    for digit in digits {
        number = (number * 10 + u128::from(digit.saturating_sub(b'0'))).min(ABOVE_LIMITS);
    }
    number
}
