//! Where bytes go.

ghost use Rattle.std.specs.Prelude.{◌≡◌, ℕ, ◌<◌, ◌≤◌, List, length, take, Option, is_some, IfOk, OnOk, OnErr};
ghost use Rattle.std.specs.Io.KnownBytes.{append_known};
ghost use Rattle.host_io.specs.Faults.{Faulted};
ghost use Rattle.host_io.specs.Sink.{AppendsPart};

use crate::failed::Failed;

/// Something that takes bytes, piece by piece.
///
/// `held` is the bytes that it has taken, where the sink tells them, and `faults` counts its faults.
/// The count stands still at 2^64 - 1.
pub trait Sink {
    ghost held: { Self → Option (List ℕ) };

    ghost faults: { Self → ℕ };

    /// Takes bytes from the front of the piece and answers how many: of a piece that is not empty, at
    /// least one.
    fn put(&mut self, bytes: &[u8]) -> Result<usize, Failed>
        ensures fits { IfOk result (λ n. n ≤ length bytes.now) }
        ensures progress { IfOk result (λ n. 0 < length bytes.now → 0 < n) }
        ensures appended { IfOk result (λ n. held self.new ≡ append_known (held self.old) (take n bytes.now)) }
        ensures unchanged { OnErr result (held self.new ≡ held self.old) }
        ensures failed { OnErr result (Faulted (faults self.old) (faults self.new)) }
        ensures counts { faults self.old ≤ faults self.new }
        ensures tells { is_some (held self.new) ≡ is_some (held self.old) };
}

/// Puts all the bytes, by as many calls of `put` as the sink wants. It takes no memory.
///
/// It is `Failed` where a call of `put` is. The sink has then taken some of the bytes at the front, and
/// not all.
pub fn write_all<K: Sink>(sink: &mut K, bytes: &[u8]) -> Result<(), Failed>
    ensures all { OnOk result (K.held sink.new ≡ append_known (K.held sink.old) bytes.now) }
    ensures part { OnErr result (AppendsPart (K.held sink.old) (K.held sink.new) bytes.now) }
    ensures failed { OnErr result (Faulted (K.faults sink.old) (K.faults sink.new)) }
    ensures counts { K.faults sink.old ≤ K.faults sink.new }
    ensures tells { is_some (K.held sink.new) ≡ is_some (K.held sink.old) }
{
    let mut done = 0;
    while done < bytes.len() {
        done += sink.put(&bytes[done..])?;
    }
    Ok(())
}
