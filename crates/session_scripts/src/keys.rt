//! The keys of a data object.

ghost use Rattle.std.specs.Prelude.{◌≡◌, ◌≤◌, ◌∷◌, ◌++◌, length, take};
ghost use Rattle.part_model.specs.Script.{head_key, item_key, own_key, tail_key};

use ignite_types::limits::KEY_BYTES;
use ignite_types::{Key, ShortText};
use itoa::Buffer;

/// Writes two texts in a row, as much of them as there is room for, and says how much that is.
fn write_both(room: &mut [u8], front: &[u8], rest: &[u8]) -> usize
    requires { length front.now ≤ length room.old }
    ensures within { result ≤ length room.old }
    ensures written { take result room.new ≡ take (length room.old) (front.now ++ rest.now) }
{
    room[..front.len()].copy_from_slice(front);
    let more = rest.len().min(room.len() - front.len());
    let len = front.len() + more;
    room[front.len()..len].copy_from_slice(&rest[..more]);
    len
}

/// Two texts in a row, as much of them as a key may have.
fn joined(front: &[u8], rest: &[u8]) -> ShortText<KEY_BYTES>
    requires { length front.now ≤ 32 }
    ensures { result ≡ take 32 (front.now ++ rest.now) }
{
    let mut bytes = [0; KEY_BYTES];
    let len = write_both(&mut bytes, front, rest);
    ShortText::new(&bytes[..len])
}

/// The key of a data object whose name ends with a dot and these bytes.
fn own_key(object: &Key, name: &[u8]) -> Key
    ensures { result ≡ own_key object.now (46 ∷ name.now) }
{
    let dotted = joined(object.bytes(), b".");
    let text = joined(dotted.as_slice(), name);
    Key {
        cache: object.cache,
        text,
    }
}

/// The key of the number of the last item that was offered.
pub fn tail_key(object: &Key) -> Key
    ensures { result ≡ tail_key object.now }
{
    own_key(object, b"t")
}

/// The key of the number of the last item that was taken.
pub fn head_key(object: &Key) -> Key
    ensures { result ≡ head_key object.now }
{
    own_key(object, b"h")
}

/// The key of an item.
pub fn item_key(object: &Key, number: u64) -> Key
    ensures { result ≡ item_key object.now number }
{
    let mut buffer = Buffer::new();
    own_key(object, buffer.format(number).as_bytes())
}
