// Whole numbers in texts.
ghost use Rattle.std.specs.Prelude.{◌≡◌, ◌≢◌, ◌≤◌, ◌<◌, ◌↔◌, ℕ, IfErr, IfOk, OnErr, IsErrOf, IsTrue, decimal};
ghost use Rattle.std.specs.Str.Parse.{IsNumeral, digits_value};
ghost use Rattle.whole_numbers.specs.Digits.{IsWholeText, StartsWithZero};

use std::fmt;
use thiserror::Error;

/// Why a text is no whole number.
#[derive(Clone, Copy, Debug, PartialEq, Eq, Error)]
pub enum NumberFault {
    /// It is empty, or has a byte that is no digit.
    NotDigits,
    /// It has two or more digits, and the first is 0.
    LeadingZero,
    /// The number is above the greatest one that is allowed.
    TooLarge,
}

// By hand: its text is promised, and a derived message has no contract.
impl fmt::Display for NumberFault {
    ghost use Rattle.std.specs.Prelude.{Some};
    ghost use Rattle.whole_numbers.specs.Texts.{number_fault_text};

    ghost output = { λ fault. Some (number_fault_text fault) };

    fn fmt<W: fmt::Write>(&self, f: &mut fmt::Formatter<W>) -> fmt::Result {
        match self {
            NumberFault::NotDigits => f.write_str("not digits"),
            NumberFault::LeadingZero => f.write_str("a leading zero"),
            NumberFault::TooLarge => f.write_str("too large"),
        }
    }
}

// Whether a text is one digit or more.
fn is_numeral(text: &[u8]) -> bool
    ensures { IsTrue result ↔ IsNumeral 10 text.now }
{
    if text.is_empty() {
        return false;
    }
    for place in 0..text.len() {
        let byte = text[place];
        if byte < b'0' || byte > b'9' {
            return false;
        }
    }
    true
}

// The number of some digits, if it is at most this.
fn value_up_to(text: &[u8], most: u128) -> Result<u128, NumberFault>
    requires digits { IsNumeral 10 text.now }
    ensures value { IfOk result (λ number. number ≡ digits_value 10 text.now) }
    ensures most { IfOk result (λ number. number ≤ most) }
    ensures too_large { IfErr result (λ fault. (fault ≡ NumberFault.TooLarge)
        × (most < digits_value 10 text.now)) }
{
    let mut number = 0u128;
    for place in 0..text.len() {
        let byte = text[place];
        let digit = (byte - b'0') as u128;
        if digit > most || number > (most - digit) / 10 {
            return Err(NumberFault::TooLarge);
        }
        number = number * 10 + digit;
    }
    Ok(number)
}

/// The whole number whose decimal digits are the text, if it is at most this. The first fault that holds
/// is answered. It takes no memory.
pub fn read_whole(text: &[u8], most: u128) -> Result<u128, NumberFault>
    ensures text { IfOk result (λ _. IsWholeText text.now) }
    ensures value { IfOk result (λ number. number ≡ digits_value 10 text.now) }
    ensures most { IfOk result (λ number. number ≤ most) }
    ensures written { IfOk result (λ number. text.now ≡ decimal number) }
    ensures unwritten { OnErr result ((n : ℕ) → n ≤ most → text.now ≢ decimal n) }
    ensures not_digits { IsErrOf result NumberFault.NotDigits ↔ (IsNumeral 10 text.now → ⊥) }
    ensures leading_zero { IsErrOf result NumberFault.LeadingZero ↔
        (IsNumeral 10 text.now × StartsWithZero text.now) }
    ensures too_large { IsErrOf result NumberFault.TooLarge ↔
        (IsWholeText text.now × (most < digits_value 10 text.now)) }
{
    if !is_numeral(text) {
        return Err(NumberFault::NotDigits);
    }
    if text.len() > 1 && text[0] == b'0' {
        return Err(NumberFault::LeadingZero);
    }
    value_up_to(text, most)
}
