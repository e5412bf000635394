//! The arguments of a line: before each one space, and then its decimal digits.

ghost use Rattle.std.specs.Prelude.{◌≡◌, ◌<◌, drop, Some, IfSome};
ghost use Rattle.benchlines.specs.Arguments.{and_then, arguments_of, argument_of, digits_of, digit_of, leaving};

/// What the digit in front is worth, and what is left after it.
fn digit(line: &[u8]) -> Option<(u16, &[u8])>
    ensures value { leaving result ≡ and_then (digit_of line.now) (λ d. Some (d, drop 1 line.now)) }
    ensures small { IfSome result (λ a. a.0 < 10) }
{
    match line {
        [digit @ b'0'..=b'9', rest @ ..] => Some((u16::from(digit - b'0'), rest)),
        _ => None,
    }
}

/// The number that the digits in front say, at most so many of them, and what is left after them; none above 65,535,
/// however few its digits. No `parse`: it takes a sign.
fn digits(line: &[u8], most: usize) -> Option<(u16, &[u8])>
    ensures { leaving result ≡ digits_of most 0 line.now }
{
    let mut number = 0u16;
    let mut rest = line;
    // at most so many steps: `take_while` would not give what is left
    for _ in 0..most {
        let Some((digit, after)) = digit(rest) else {
            break;
        };
        number = number.checked_mul(10)?.checked_add(digit)?;
        rest = after;
    }
    Some((number, rest))
}

/// The argument in front, one space and one digit or more, at most so many; and what is left after it.
fn argument(line: &[u8], most: usize) -> Option<(u16, &[u8])>
    ensures { leaving result ≡ argument_of most line.now }
{
    let [b' ', number @ ..] = line else {
        return None;
    };
    let [b'0'..=b'9', ..] = number else {
        return None;
    };
    digits(number, most)
}

/// The arguments of a line, just N of them, each with at most so many digits.
fn every_argument<const N: usize>(line: &[u8], most: usize) -> Option<[u16; N]>
    ensures { result ≡ arguments_of most N line.now }
{
    let mut numbers = [0; N];
    let mut rest = line;
    for number in numbers.iter_mut() {
        let (value, after) = argument(rest, most)?;
        *number = value;
        rest = after;
    }
    rest.is_empty().then_some(numbers)
}

/// What a line has from a place on; nothing where the place is past its end.
fn left_from(line: &[u8], from: usize) -> &[u8]
    ensures { result.now ≡ drop from line.now }
{
    if from < line.len() {
        &line[from..]
    } else {
        &[]
    }
}

/// The arguments from a place to the end of the line, just N of them, each with at most so many digits.
pub fn arguments<const N: usize>(line: &[u8], from: usize, most: usize) -> Option<[u16; N]>
    ensures { result ≡ arguments_of most N (drop from line.now) }
{
    every_argument(left_from(line, from), most)
}
