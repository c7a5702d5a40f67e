//! Keys and values.

ghost use Rattle.std.specs.Prelude.{◌≡◌, ◌≤◌, length};
ghost use Rattle.ignite_types.specs.Placement.{key_hash};
ghost use Rattle.ignite_types.specs.Texts.{allows, first_bad, text_of, key_of, value_of};

use crate::limits::{KEY_BYTES, VALUE_BYTES};
use crate::short_text::ShortText;
use std::marker::Model;
use thiserror::Error;

/// A key: a cache's number and at most 32 bytes. Compared by the number, then by the bytes.
#[derive(Clone, Copy, Debug, PartialEq, Eq, PartialOrd, Ord, Hash)]
pub struct Key {
    pub cache: u32,
    pub text: ShortText<KEY_BYTES>,
}

/// A value: at most 64 bytes, seen by contracts as the list of its bytes.
#[derive(Clone, Copy, Debug, PartialEq, Eq, PartialOrd, Ord)]
pub struct Value {
    text: ShortText<VALUE_BYTES>,
}

impl Model for Value {
    ghost use Rattle.std.specs.Prelude.{ℕ, List};
    ghost use Rattle.std.specs.Coded.{coded_list, coded_ℕ};

    ghost Value = { List ℕ };

    ghost coded = { coded_list coded_ℕ };

    ghost view = { λ value. value.text };

    ghost inverse = { λ text. record { text = text } };
}

/// Why bytes are no key or no value: there are none, there are too many, or this place, from 0, has the first byte that
/// may not stand there. Tried in this order.
#[derive(Clone, Copy, Debug, PartialEq, Eq, Error)]
pub enum TextFault {
    #[error("the text is empty")]
    Empty,
    #[error("the text is too long")]
    TooLong,
    #[error("the byte at place {0} may not stand there")]
    BadByte(usize),
}

/// Which text is read.
#[derive(Clone, Copy)]
enum Form {
    Key,
    Value,
}

impl Form {
    /// Whether this byte may stand in the text.
    fn allows(self, byte: u8) -> bool
        ensures { result ≡ allows self byte }
    {
        let plain = byte.is_ascii_alphanumeric() || matches!(byte, b'_' | b'.' | b'-');
        match self {
            Form::Key => plain,
            Form::Value => plain || matches!(byte, b'+' | b':' | b'/'),
        }
    }

    /// The place of the first byte that may not stand there.
    fn first_bad(self, bytes: &[u8]) -> Option<usize>
        ensures { result ≡ first_bad (allows self) bytes.now }
    {
        bytes.iter().position(|byte| !self.allows(*byte))
    }

    /// The text of these bytes, of at most `N`, or the first fault.
    fn read<const N: usize>(self, bytes: &[u8]) -> Result<ShortText<N>, TextFault>
        ensures { result ≡ text_of N (allows self) bytes.now }
    {
        if bytes.is_empty() {
            return Err(TextFault::Empty);
        }
        if N < bytes.len() {
            return Err(TextFault::TooLong);
        }
        match self.first_bad(bytes) {
            Some(place) => Err(TextFault::BadByte(place)),
            None => Ok(ShortText::new(bytes)),
        }
    }
}

impl Key {
    /// The key of cache 0 with these bytes: letters, digits, `_`, `.` and `-`.
    pub fn read(bytes: &[u8]) -> Result<Key, TextFault>
        ensures { result ≡ key_of 0 bytes.now }
    {
        Key::in_cache(0, bytes)
    }

    /// The key of this cache with these bytes, of the form that `read` asks.
    pub fn in_cache(cache: u32, bytes: &[u8]) -> Result<Key, TextFault>
        ensures { result ≡ key_of cache bytes.now }
    {
        let text = Form::Key.read(bytes)?;
        Ok(Key { cache, text })
    }

    /// The number of its cache.
    pub fn cache(&self) -> u32
        ensures { result ≡ self.now.cache }
    {
        self.cache
    }

    /// The hash of its bytes, which places it among its cache's partitions.
    pub fn hash(&self) -> u32
        ensures { result ≡ key_hash self.now.text }
    {
        let mut hash = 0u32;
        for byte in self.text.as_slice() {
            hash = hash.wrapping_mul(31).wrapping_add(u32::from(*byte));
        }
        hash
    }

    /// Its bytes, without the cache.
    pub fn bytes(&self) -> &[u8]
        ensures value { result.now ≡ self.now.text }
        ensures fits { length result.now ≤ KEY_BYTES }
    {
        self.text.as_slice()
    }
}

impl Value {
    /// The value with these bytes: letters, digits, `_`, `.`, `-`, `+`, `:` and `/`.
    pub fn read(bytes: &[u8]) -> Result<Value, TextFault>
        ensures { result ≡ value_of bytes.now }
    {
        let text = Form::Value.read(bytes)?;
        Ok(Value { text })
    }

    pub fn bytes(&self) -> &[u8]
        ensures value { result.now ≡ self.now }
        ensures fits { length result.now ≤ VALUE_BYTES }
    {
        self.text.as_slice()
    }
}
