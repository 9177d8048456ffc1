//! Numbers in decimal digits.

ghost use Rattle.std.specs.Prelude.{◌≡◌, ◌+◌, ◌-◌, ◌*◌, ◌<◌, ◌≤◌, ◌^◌, length, take, nat_lt, IfOk};
ghost use Rattle.std.specs.Option.{option_map_or};
ghost use Rattle.std.specs.Str.Parse.{digits_value, AllDigits};
ghost use Rattle.hu_kind.specs.Number.{number, signed_number, digits_from, other_place};

/// Why a text is no number.
#[derive(Clone, Copy, Debug, PartialEq, Eq)]
pub enum NumberFault {
    /// There is no digit, or none after the sign.
    Empty,
    /// The first byte that is no digit, by its place in the whole text, from 0.
    NotDigit(usize),
    /// There are more than 39 digits, or the value is above 2^127 - 1.
    TooLarge,
}

/// The greatest number that a text may say.
const GREATEST: u128 = i128::MAX as u128;

/// The number that a text of 1 to 39 decimal digits says, from 0 to 2^127 - 1. One pass over the text.
pub fn read_number(text: &[u8]) -> Result<i128, NumberFault>
    ensures { result ≡ number text.now }
{
    let value = read_digits(0, text)?;
    Ok(value as i128)
}

/// The number that a text says which may have one `-` in front of its digits; `-0` is 0. One pass over the text.
pub fn read_signed(text: &[u8]) -> Result<i128, NumberFault>
    ensures { result ≡ signed_number text.now }
{
    if text.first() == Some(&b'-') {
        let value = read_digits(1, &text[1..])?;
        Ok(-(value as i128))
    } else {
        read_number(text)
    }
}

/// What bytes say of which the first stands at place `at` of the text.
fn read_digits(at: usize, text: &[u8]) -> Result<u128, NumberFault>
    requires { at + length text.now < 2 ^ 64 }
    ensures value { result ≡ digits_from at text.now }
    ensures fits { IfOk result (λ n. n < 2 ^ 127) }
{
    if text.is_empty() {
        return Err(NumberFault::Empty);
    }
    let (front, count) = front_digits(text);
    if count == text.len() {
        Ok(u128::from(front))
    } else {
        read_rest(at, text, count, u128::from(front))
    }
}

/// The value of the digits with which a text begins, and how many they are; of more than 18, the first 18.
pub(crate) fn front_digits(text: &[u8]) -> (u64, usize)
    ensures within { result.1 ≤ length text.now }
    ensures few { result.1 ≤ 18 }
    ensures digits { AllDigits 10 (take result.1 text.now) }
    ensures value { result.0 ≡ digits_value 10 (take result.1 text.now) }
{
    let mut value = 0u64;
    let mut count = 0;
    while count < 18 && count < text.len() && text[count].is_ascii_digit() {
        value = value * 10 + u64::from(text[count] - b'0');
        count += 1;
    }
    (value, count)
}

/// What bytes say of which the first `from` are digits of value `front`.
fn read_rest(at: usize, text: &[u8], from: usize, front: u128) -> Result<u128, NumberFault>
    requires room { at + length text.now < 2 ^ 64 }
    requires within { from < length text.now }
    requires digits { AllDigits 10 (take from text.now) }
    requires front { front ≡ digits_value 10 (take from text.now) }
    requires small { front < 2 ^ 127 }
    ensures value { result ≡ digits_from at text.now }
    ensures fits { IfOk result (λ n. n < 2 ^ 127) }
{
    if text.len() > 39 {
        return Err(fault_after(at, text, from));
    }
    let mut value = front;
    for i in from..text.len() {
        if !text[i].is_ascii_digit() || is_past(value, text[i] - b'0') {
            return Err(fault_after(at, text, i));
        }
        value = value * 10 + u128::from(text[i] - b'0');
    }
    Ok(value)
}

/// Whether a value with one more digit is above 2^127 - 1.
fn is_past(value: u128, digit: u8) -> bool
    requires { digit < 10 }
    ensures { result ≡ nat_lt (2 ^ 127 - 1) (value * 10 + digit) }
{
    value > GREATEST / 10 || (value == GREATEST / 10 && u128::from(digit) > GREATEST % 10)
}

/// Why bytes are no number of which the first `from` are digits: a later byte is none, or else they are too many or too
/// great.
fn fault_after(at: usize, text: &[u8], from: usize) -> NumberFault
    requires room { at + length text.now < 2 ^ 64 }
    requires within { from ≤ length text.now }
    requires digits { AllDigits 10 (take from text.now) }
    ensures { result ≡ option_map_or (λ place. NumberFault.NotDigit (at + place))
        (other_place text.now) NumberFault.TooLarge }
{
    match other_place(&text[from..]) {
        Some(place) => NumberFault::NotDigit(at + from + place),
        None => NumberFault::TooLarge,
    }
}

/// The first byte that is no digit.
fn other_place(text: &[u8]) -> Option<usize>
    ensures { result ≡ other_place text.now }
{
    text.iter().position(|byte| !byte.is_ascii_digit())
}
