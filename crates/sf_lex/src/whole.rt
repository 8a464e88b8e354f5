//! Whole numbers of digits alone.

ghost use Rattle.std.specs.Prelude.{◌≡◌, ◌≤◌, IsTrue, IfSome};
ghost use Rattle.std.specs.List.{list_all};
ghost use Rattle.sf_lex.specs.Number.{is_digit, number_of};
ghost use Rattle.sf_lex.specs.Whole.{whole_read, plain_read, begins_with_zero, up_to};

use crate::digits::{are_digits, number};

/// The number that the digits write, where it is within the limit.
fn number_up_to(digits: &[u8], limit: u64) -> Option<u64>
    requires { IsTrue (list_all is_digit digits.now) }
    ensures { result ≡ up_to limit (number_of digits.now) }
{
    let number = number(digits);
    if number <= u128::from(limit) {
        Some(number as u64)
    } else {
        None
    }
}

/// Whether the first digit is a zero.
fn has_zero_at_front(word: &[u8]) -> bool
    ensures { result ≡ begins_with_zero word.now }
{
    match word.first() {
        Some(byte) => *byte == b'0',
        None => false,
    }
}

/// A whole number of one to twenty digits, zeros at the front allowed.
#[tactic(auto, unfolding(crate::specs::Whole::whole_read))]
pub fn read_whole(word: &[u8], limit: u64) -> Option<u64>
    ensures value { result ≡ whole_read limit word.now }
    ensures bound { IfSome result (λ n. n ≤ limit) }
{
    if are_digits(word) && !word.is_empty() && word.len() <= 20 {
        number_up_to(word, limit)
    } else {
        None
    }
}

/// A whole number without zeros at the front, `0` itself excepted.
#[tactic(auto, unfolding(crate::specs::Whole::plain_read))]
pub fn read_plain(word: &[u8], limit: u64) -> Option<u64>
    ensures value { result ≡ plain_read limit word.now }
    ensures bound { IfSome result (λ n. n ≤ limit) }
{
    if are_digits(word) && !word.is_empty() && (word.len() == 1 || !has_zero_at_front(word)) {
        number_up_to(word, limit)
    } else {
        None
    }
}
