//! Values that are numbers, and their sums.

ghost use Rattle.std.specs.Prelude.{◌≡◌, ◌≤◌, ◌^◌, ◌+ℤ◌, length, IsTrue, IfSome};
ghost use Rattle.std.specs.List.{list_all};
ghost use Rattle.std.specs.Fmt.{signed_decimal};
ghost use Rattle.std.specs.Str.Parse.{digits_value};
ghost use Rattle.part_model.specs.Numbers.{below_zero, is_natural, natural, number_of, sum_in_64, sum_with_value};
ghost use Rattle.ignite_types.specs.Texts.{is_digit};

use ignite_types::{Answer, Value};
use itoa::Buffer;

/// The most digits that a number has.
const DIGITS: usize = 19;

/// The greatest number.
const MOST: u64 = 9223372036854775807;

/// Whether each byte is a digit.
fn are_digits(text: &[u8]) -> bool
    ensures { result ≡ list_all is_digit text.now }
{
    text.iter().all(|byte| byte.is_ascii_digit())
}

/// Whether these are digits, few enough, and not 0 in front.
fn is_natural(text: &[u8]) -> bool
    ensures { result ≡ is_natural text.now }
{
    match text {
        [first, ..] => *first != b'0' && text.len() <= DIGITS && are_digits(text),
        [] => false,
    }
}

/// The number that these digits spell.
fn spelled(digits: &[u8]) -> u64
    requires few { length digits.now ≤ 19 }
    requires digits { IsTrue (list_all is_digit digits.now) }
    ensures { result ≡ digits_value 10 digits.now }
{
    let mut number: u64 = 0;
    for digit in digits {
        number = number * 10 + u64::from(*digit - b'0');
    }
    number
}

/// The number from 1 to `most` that a text spells.
fn natural(most: u64, text: &[u8]) -> Option<u64>
    ensures number { result ≡ natural most text.now }
    ensures within { IfSome result (λ n. n ≤ most) }
{
    if !is_natural(text) {
        return None;
    }
    let number = spelled(text);
    if number <= most { Some(number) } else { None }
}

/// The number that is as far below 0 as this one is above.
fn below_zero(number: u64) -> i64
    requires { number ≤ 2 ^ 63 }
    ensures { result ≡ below_zero number }
{
    if number == 0 {
        0
    } else {
        -1 - (number - 1) as i64
    }
}

/// The number of a value: `0`, or a digit 1 to 9 and further digits, with a `-` before it or not, in 64 bits.
pub fn number_of(value: &Value) -> Option<i64>
    ensures { result ≡ number_of value.now }
{
    number_in(value.bytes())
}

/// The number that a text is.
fn number_in(text: &[u8]) -> Option<i64>
    ensures { result ≡ number_of text.now }
{
    let [first, digits @ ..] = text else {
        return None;
    };
    if text == b"0".as_slice() {
        return Some(0);
    }
    if *first == b'-' {
        let number = natural(MOST + 1, digits)?;
        return Some(below_zero(number));
    }
    let number = natural(MOST, text)?;
    Some(number as i64)
}

/// A number as a value.
pub fn number_value(number: i64) -> Value
    ensures { result ≡ signed_decimal number }
{
    let mut buffer = Buffer::new();
    let text = buffer.format(number);
    match Value::read(text.as_bytes()) {
        Ok(value) => value,
        Err(_) => unreachable!(),
    }
}

/// The sum as a value, or that it leaves 64 bits.
fn sum(number: i64, amount: i64) -> Result<Value, Answer>
    ensures { result ≡ sum_in_64 (number +ℤ amount) }
{
    match number.checked_add(amount) {
        Some(sum) => Ok(number_value(sum)),
        None => Err(Answer::Overflow),
    }
}

/// A number added to what is there: absent is 0.
pub fn added(value: &Option<Value>, amount: i64) -> Result<Value, Answer>
    ensures { result ≡ sum_with_value value.now amount }
{
    match value {
        None => Ok(number_value(amount)),
        Some(value) => match number_of(value) {
            None => Err(Answer::NotNumber),
            Some(number) => sum(number, amount),
        },
    }
}
