//! Text that is being written.

ghost use Rattle.std.specs.Prelude.{◌≡◌, [], ◌∷◌, ◌++◌, length, decimal, OnOk};
ghost use Rattle.std.specs.Fmt.{signed_decimal};

use ignite_types::Mem;
use itoa::Buffer;
use std::alloc::Global;
use std::marker::Model;

/// Text that is being written, seen by contracts as the list of its bytes.
#[derive(Debug, Drop)]
pub struct TextOut {
    out: Vec<u8>,
}

impl Model for TextOut {
    ghost use Rattle.std.specs.Prelude.{ℕ, List};

    ghost Value = { List ℕ };

    ghost view = { λ text. text.out.items };
}

impl TextOut {
    /// No text, which takes no memory.
    pub fn new(alloc: Global) -> TextOut
        ensures { result ≡ [] }
    {
        TextOut {
            out: Vec::new(alloc),
        }
    }

    /// Writes bytes.
    pub fn bytes(&mut self, bytes: &[u8]) -> Mem<()>
        ensures { OnOk result (self.new ≡ self.old ++ bytes.now) }
    {
        self.out.extend_from_slice(bytes)?;
        Ok(())
    }

    /// Writes a text.
    pub fn text(&mut self, text: &str) -> Mem<()>
        ensures { OnOk result (self.new ≡ self.old ++ text.now) }
    {
        self.bytes(text.as_bytes())
    }

    /// Writes one byte.
    pub fn byte(&mut self, byte: u8) -> Mem<()>
        ensures { OnOk result (self.new ≡ self.old ++ byte ∷ []) }
    {
        self.out.push(byte)?;
        Ok(())
    }

    /// Writes a number in decimal, without leading zeros.
    pub fn number(&mut self, number: u64) -> Mem<()>
        ensures { OnOk result (self.new ≡ self.old ++ decimal number) }
    {
        let mut digits = Buffer::new();
        self.bytes(digits.format(number).as_bytes())
    }

    /// Writes a number in decimal, with a `-` before it where it is below 0.
    pub fn integer(&mut self, number: i64) -> Mem<()>
        ensures { OnOk result (self.new ≡ self.old ++ signed_decimal number) }
    {
        let mut signed = Buffer::new();
        self.bytes(signed.format(number).as_bytes())
    }

    /// Gives the bytes; it takes no memory.
    pub fn into_vec(self) -> Vec<u8>
        ensures { result.items ≡ self }
    {
        let TextOut { out } = self;
        out
    }
}
