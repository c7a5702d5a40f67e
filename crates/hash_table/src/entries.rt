//! What is asked of each entry of a table, or done to it.

ghost use Rattle.std.specs.Prelude.{◌≡◌, Bool};

/// A test of entries, in place of a closure, so that a contract can name what it answers.
pub trait EntryTest<K, V> {
    // What the test answers.
    ghost passes: { Self → K × V → Bool };

    fn passes(&self, key: &K, value: &V) -> bool
        ensures { result ≡ passes self.now (key.now, value.now) };
}

/// A change of values in place, which takes no memory.
pub trait EntryChange<K, V> {
    // What becomes of the value of an entry.
    ghost changed: { Self → K × V → V };

    fn change(&self, key: &K, value: &mut V)
        ensures { value.new ≡ changed self.now (key.now, value.old) };
}
