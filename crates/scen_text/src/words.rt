//! The numbers, names, keys and values that words are.

ghost use Rattle.std.specs.Prelude.{◌≡◌, ◌≤◌, ◌<◌, ◌^◌, length, pos, negsuc, IfOk, IsTrue};
ghost use Rattle.std.specs.List.{list_all, before_first, after_first};
ghost use Rattle.std.specs.Str.Parse.{digits_value};
ghost use Rattle.ignite_types.specs.Texts.{is_digit, is_key_byte, is_value_byte};
ghost use Rattle.ignite_types.specs.Good.{is_name_byte};
ghost use Rattle.scen_text.specs.Causes.{Gives};
ghost use Rattle.scen_text.specs.Words.{at_slash, fitting, four_words, integer, is_natural_word, is_number_word, key_of_word, name, natural_of_word, negated, number_of_word, object, only_word, two_words, value_of_word, words};

use crate::cause::Cause;
use crate::lines::{cut_at, first_word};
use ignite_types::limits::NAME_BYTES;
use ignite_types::{Key, ShortText, TextFault, Value};

/// The most digits that a number may have.
const DIGITS: usize = 7;

/// The most digits that an integer may have: those of the greatest of 64 bits.
const INTEGER_DIGITS: usize = 19;

/// The greatest integer.
const MOST: u64 = 9_223_372_036_854_775_807;

/// A session's or a cache's name.
pub type Name = ShortText<NAME_BYTES>;

/// The one word of a line.
pub fn only_word(line: &[u8]) -> Result<&[u8], Cause>
    ensures { Gives (λ word. word.now) result (only_word (words line.now)) }
{
    match first_word(line) {
        Some((word, rest)) if first_word(rest).is_none() => Ok(word),
        _ => Err(Cause::Syntax),
    }
}

/// The two words of a line.
pub fn two_words(line: &[u8]) -> Result<(&[u8], &[u8]), Cause>
    ensures { Gives (λ found. (found.0.now, found.1.now)) result (two_words (words line.now)) }
{
    let Some((first, rest)) = first_word(line) else {
        return Err(Cause::Syntax);
    };
    let second = only_word(rest)?;
    Ok((first, second))
}

/// The four words of a line.
pub fn four_words(line: &[u8]) -> Result<(&[u8], &[u8], &[u8], &[u8]), Cause>
    ensures { Gives (λ found. (found.0.now, found.1.now, found.2.now, found.3.now)) result (four_words (words line.now)) }
{
    let Some((first, rest)) = first_word(line) else {
        return Err(Cause::Syntax);
    };
    let Some((second, rest)) = first_word(rest) else {
        return Err(Cause::Syntax);
    };
    let (third, fourth) = two_words(rest)?;
    Ok((first, second, third, fourth))
}

/// Whether the byte is a digit.
fn is_digit(byte: u8) -> bool
    ensures { result ≡ is_digit byte }
{
    byte.is_ascii_digit()
}

/// Whether the byte may stand in a name.
fn is_name_byte(byte: u8) -> bool
    ensures { result ≡ is_name_byte byte }
{
    byte.is_ascii_alphanumeric()
}

/// Whether the byte may stand in a key.
fn is_key_byte(byte: u8) -> bool
    ensures { result ≡ is_key_byte byte }
{
    is_name_byte(byte) || byte == b'_' || byte == b'.' || byte == b'-'
}

/// Whether the byte may stand in a value.
fn is_value_byte(byte: u8) -> bool
    ensures { result ≡ is_value_byte byte }
{
    is_key_byte(byte) || byte == b'+' || byte == b':' || byte == b'/'
}

/// Whether each byte is a digit.
fn are_digits(bytes: &[u8]) -> bool
    ensures { result ≡ list_all is_digit bytes.now }
{
    bytes.iter().all(|byte| is_digit(*byte))
}

/// Whether each byte may stand in a name.
fn are_name_bytes(bytes: &[u8]) -> bool
    ensures { result ≡ list_all is_name_byte bytes.now }
{
    bytes.iter().all(|byte| is_name_byte(*byte))
}

/// Whether each byte may stand in a key.
fn are_key_bytes(bytes: &[u8]) -> bool
    ensures { result ≡ list_all is_key_byte bytes.now }
{
    bytes.iter().all(|byte| is_key_byte(*byte))
}

/// Whether each byte may stand in a value.
fn are_value_bytes(bytes: &[u8]) -> bool
    ensures { result ≡ list_all is_value_byte bytes.now }
{
    bytes.iter().all(|byte| is_value_byte(*byte))
}

/// Whether the word is a number.
fn is_number(word: &[u8]) -> bool
    ensures { result ≡ is_number_word word.now }
{
    !word.is_empty() && word.len() <= DIGITS && are_digits(word)
}

/// The number that these digits spell.
fn digits_value(digits: &[u8]) -> u32
    requires few { length digits.now ≤ 7 }
    requires digits { IsTrue (list_all is_digit digits.now) }
    ensures { result ≡ digits_value 10 digits.now }
{
    let mut number: u32 = 0;
    for digit in digits {
        number = number * 10 + u32::from(*digit - b'0');
    }
    number
}

/// The number that a word is.
pub fn number(word: &[u8]) -> Result<u32, Cause>
    ensures { result ≡ number_of_word word.now }
{
    if is_number(word) {
        Ok(digits_value(word))
    } else {
        Err(Cause::Syntax)
    }
}

/// The name that a word is; nothing where it is too long.
pub fn name(word: &[u8]) -> Result<Option<Name>, Cause>
    ensures { result ≡ name word.now }
{
    if word.is_empty() || !are_name_bytes(word) {
        return Err(Cause::Syntax);
    }
    if word.len() <= NAME_BYTES {
        Ok(Some(ShortText::new(word)))
    } else {
        Ok(None)
    }
}

/// The object that a word is, in cache 0; nothing where it is too long.
pub fn object(word: &[u8]) -> Result<Option<Key>, Cause>
    ensures { result ≡ object word.now }
{
    if word.is_empty() || !are_name_bytes(word) {
        return Err(Cause::Syntax);
    }
    if word.len() <= NAME_BYTES {
        let text = ShortText::new(word);
        Ok(Some(Key { cache: 0, text }))
    } else {
        Ok(None)
    }
}

/// What a text was read as, where it has this form; nothing where it is too long.
fn fitting<T: Copy>(formed: bool, read: Result<T, TextFault>) -> Result<Option<T>, Cause>
    ensures { result ≡ fitting formed read }
{
    match read {
        Ok(text) => Ok(Some(text)),
        Err(TextFault::TooLong) if formed => Ok(None),
        Err(_) => Err(Cause::Syntax),
    }
}

/// The key that a word is, in cache 0; nothing where it is too long.
pub fn key(word: &[u8]) -> Result<Option<Key>, Cause>
    ensures { result ≡ key_of_word word.now }
{
    fitting(are_key_bytes(word), Key::read(word))
}

/// The value that a word is; nothing where it is too long.
pub fn value(word: &[u8]) -> Result<Option<Value>, Cause>
    ensures { result ≡ value_of_word word.now }
{
    fitting(are_value_bytes(word), Value::read(word))
}

/// The word before the first slash of a word, and the one behind it.
pub fn at_slash(word: &[u8]) -> Result<(&[u8], &[u8]), Cause>
    ensures { Gives (λ found. (found.0.now, found.1.now)) result (at_slash word.now) }
{
    match cut_at(b'/', word) {
        Some(found) => Ok(found),
        None => Err(Cause::Syntax),
    }
}

/// Whether these are digits, few enough, and not 0 in front.
fn is_natural(word: &[u8]) -> bool
    ensures { result ≡ is_natural_word word.now }
{
    match word {
        [first, ..] => *first != b'0' && word.len() <= INTEGER_DIGITS && are_digits(word),
        [] => false,
    }
}

/// The number that these digits spell.
fn long_digits_value(digits: &[u8]) -> u64
    requires few { length digits.now ≤ 19 }
    requires digits { IsTrue (list_all is_digit digits.now) }
    ensures { result ≡ digits_value 10 digits.now }
{
    let mut number: u64 = 0;
    for digit in digits {
        number = number * 10 + u64::from(*digit - b'0');
    }
    number
}

/// The number from 1 to `most` that a word is.
fn natural(most: u64, word: &[u8]) -> Result<u64, Cause>
    ensures number { result ≡ natural_of_word most word.now }
    ensures within { IfOk result (λ n. n ≤ most) }
{
    if !is_natural(word) {
        return Err(Cause::Syntax);
    }
    let number = long_digits_value(word);
    if number <= most {
        Ok(number)
    } else {
        Err(Cause::Syntax)
    }
}

/// The number that is as far below 0 as this one is above.
fn below_zero(number: u64) -> i64
    requires { number ≤ 2 ^ 63 }
    ensures { result ≡ negated number }
{
    if number == 0 {
        0
    } else {
        -1 - (number - 1) as i64
    }
}

/// The integer that a word is.
pub fn integer(word: &[u8]) -> Result<i64, Cause>
    ensures { result ≡ integer word.now }
{
    let [first, digits @ ..] = word else {
        return Err(Cause::Syntax);
    };
    if word == b"0".as_slice() {
        return Ok(0);
    }
    if *first == b'-' {
        let number = natural(MOST + 1, digits)?;
        return Ok(below_zero(number));
    }
    let number = natural(MOST, word)?;
    Ok(number as i64)
}
