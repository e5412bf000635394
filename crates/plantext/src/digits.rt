//! A word of hexadecimal digits.

ghost use Rattle.std.specs.Prelude.{◌≡◌};
ghost use Rattle.plantext.specs.Digits.{hex_of};

use super::faults::Reason;

/// The number that a word of one to eight digits says.
// not `u32::from_str_radix`, which takes a text and not bytes, and a sign before the digits
pub(super) fn hex(word: &[u8]) -> Result<u32, Reason>
    ensures { result ≡ hex_of word.now }
{
    if word.len() > 8 {
        return Err(Reason::LongWord);
    }
    let mut value = 0u32;
    for byte in word {
        let digit = char::from(*byte).to_digit(16).ok_or(Reason::BadDigit)?;
        value = value * 16 + digit;
    }
    Ok(value)
}
