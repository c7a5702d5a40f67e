//! The data objects that commands name.

ghost use Rattle.std.specs.Prelude.{◌≡◌, [], ◌∷◌, ◌++◌, OnOk, if◌then◌else◌};
ghost use Rattle.scen_text.specs.Known.{has_object, is_other, same_object_kind};

use crate::limits::Kind;
use ignite_types::{Key, Mem};
use indexmap::IndexMap;
use std::alloc::Global;
use std::marker::Model;

/// The kinds of the objects, each object once, in the order in which they were first named. An object is found by its
/// hash, so that the time of a look-up does not grow with their number.
#[derive(Drop)]
pub struct Objects {
    kinds: IndexMap<Key, Kind>,
}

impl Model for Objects {
    ghost use Rattle.std.specs.Prelude.{List};
    ghost use Rattle.ignite_types.specs.declared.text.Key.{Key};
    ghost use Rattle.ignite_types.specs.Names.{same_key};
    ghost use Rattle.scen_text.specs.declared.limits.Kind.{Kind};
    ghost use Rattle.indexmap.specs.IndexMap.{IsUnique};

    ghost Value = { List (Key × Kind) };

    ghost view = { λ objects. objects.kinds.entries };

    ghost invariant = { λ objects. IsUnique same_key objects.kinds };
}

impl Objects {
    /// No object, which takes no memory.
    pub fn new(alloc: Global) -> Objects
        ensures { result ≡ [] }
    {
        Objects {
            kinds: IndexMap::new(alloc),
        }
    }

    /// Whether the object is known to be of another kind.
    pub fn is_other(&self, key: &Key, kind: Kind) -> bool
        ensures { result ≡ is_other self.now key.now kind }
    {
        match self.kinds.get(key) {
            Some(known) => !same_kind(*known, kind),
            None => false,
        }
    }

    /// Adds an object's kind, if it is not known.
    pub fn add(&mut self, key: &Key, kind: Kind) -> Mem<()>
        ensures { OnOk result (self.new ≡ (if has_object self.old key.now then self.old else self.old ++ (key.now, kind) ∷ [])) }
    {
        if !self.kinds.contains_key(key) {
            self.kinds.insert(*key, kind)?;
        }
        Ok(())
    }
}

/// Whether these are one kind.
fn same_kind(a: Kind, b: Kind) -> bool
    ensures { result ≡ same_object_kind a b }
{
    match (a, b) {
        (Kind::Long, Kind::Long) => true,
        (Kind::Sequence, Kind::Sequence) => true,
        (Kind::Queue, Kind::Queue) => true,
        _ => false,
    }
}
