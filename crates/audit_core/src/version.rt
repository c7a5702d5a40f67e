//! Versions as texts.

ghost use Rattle.std.specs.Prelude.{◌≡◌, Some, None};
ghost use Rattle.std.specs.List.{list_all};
ghost use Rattle.audit_core.specs.Shape.{is_decimal, is_numeral, long_number, starts_with_zero, printed_version_of};

use ignite_types::TopVer;

/// Whether each byte is a digit.
fn are_digits(text: &str) -> bool
    ensures { result ≡ list_all is_decimal text.now }
{
    text.as_bytes().iter().all(|byte| byte.is_ascii_digit())
}

/// Whether a 0 stands first.
fn starts_with_zero(text: &str) -> bool
    ensures { result ≡ starts_with_zero text.now }
{
    match text.as_bytes() {
        [] => false,
        [first, ..] => *first == b'0',
    }
}

/// Whether these are digits, with no 0 before another.
fn is_numeral(text: &str) -> bool
    ensures { result ≡ is_numeral text.now }
{
    !text.is_empty() && are_digits(text) && (text.len() == 1 || !starts_with_zero(text))
}

/// The number of 64 bits that the text spells. Without the test the parse would take a sign and leading zeros too.
fn long_number(text: &str) -> Option<u64>
    ensures { result ≡ long_number text.now }
{
    if !is_numeral(text) {
        return None;
    }
    match text.parse::<u64>() {
        Ok(number) => Some(number),
        Err(_) => None,
    }
}

/// The version that a text spells, as `MAJOR.MINOR`.
pub fn version_of(text: &str) -> Option<TopVer>
    ensures { result ≡ printed_version_of text.now }
{
    let (major, minor) = text.split_once('.')?;
    let major = long_number(major)?;
    let minor = long_number(minor)?;
    Some(TopVer { major, minor })
}
