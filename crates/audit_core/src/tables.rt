//! The names so far, and the plain map, each kept in a hash table.

ghost use Rattle.std.specs.Prelude.{◌≡◌, [], IfOk, OnOk};
ghost use Rattle.std.specs.Option.{option_copied};
ghost use Rattle.ordered_table.specs.Entries.{at, put, without};
ghost use Rattle.audit_core.specs.Histories.{bytes_cmp};
ghost use Rattle.audit_core.specs.Verdict.{change_in, changes_in, is_among, with_name};

use crate::history::Change;
use crate::text::LongText;
use ignite_types::{List, Mem};
use indexmap::{IndexMap, IndexSet};
use std::alloc::Global;
use std::marker::Model;

/// The names that came, each once, seen as their list.
#[derive(Debug, Drop)]
pub struct NameSet {
    names: IndexSet<LongText>,
}

impl Model for NameSet {
    ghost use Rattle.std.specs.Prelude.{ℕ, List};
    ghost use Rattle.std.specs.Coded.{coded_list, coded_ℕ};

    ghost Value = { List (List ℕ) };

    ghost coded = { coded_list (coded_list coded_ℕ) };

    ghost view = { λ set. set.names.keys };
}

impl NameSet {
    /// No names, which takes no memory.
    pub fn new(alloc: Global) -> NameSet
        ensures { result ≡ [] }
    {
        NameSet {
            names: IndexSet::new(alloc),
        }
    }

    /// Whether the name came.
    pub fn contains(&self, name: &LongText) -> bool
        ensures { result ≡ is_among name.now self.now }
    {
        self.names.contains(name)
    }

    /// One more name.
    pub fn add(&mut self, name: LongText) -> Mem<()>
        ensures { OnOk result (self.new ≡ with_name self.old name) }
    {
        self.names.insert(name)?;
        Ok(())
    }
}

/// A map from texts to texts, seen as the list of its entries in the byte order of their keys.
#[derive(Debug, Drop)]
pub struct PlainMap {
    map: IndexMap<LongText, LongText>,
    alloc: Global,
}

impl Model for PlainMap {
    ghost use Rattle.std.specs.Prelude.{ℕ, List};
    ghost use Rattle.std.specs.Coded.{coded_list, coded×, coded_ℕ};
    ghost use Rattle.hash_table.specs.ByKey.{by_key};
    ghost use Rattle.audit_core.specs.Histories.{bytes_cmp};

    ghost Value = { List (List ℕ × List ℕ) };

    ghost coded = { coded_list (coded× (coded_list coded_ℕ) (coded_list coded_ℕ)) };

    ghost view = { λ m. by_key bytes_cmp m.map.entries };
}

impl PlainMap {
    /// The empty map, which takes no memory.
    pub fn new(alloc: Global) -> PlainMap
        ensures { result ≡ [] }
    {
        PlainMap {
            map: IndexMap::new(alloc),
            alloc,
        }
    }

    /// The value at a key.
    pub fn get(&self, key: &LongText) -> Option<&LongText>
        ensures { option_copied result ≡ at bytes_cmp self.now key.now }
    {
        self.map.get(key)
    }

    /// Puts the value at the key, in place of the one that was there.
    fn set(&mut self, key: LongText, value: LongText) -> Mem<()>
        ensures { OnOk result (self.new ≡ put bytes_cmp self.old key value) }
    {
        self.map.insert(key, value)?;
        Ok(())
    }

    /// Takes the key and its value out.
    fn remove(&mut self, key: &LongText)
        ensures { self.new ≡ without bytes_cmp self.old key.now }
    {
        self.map.swap_remove(key);
    }

    /// Does a write, or a removal.
    fn change(&mut self, change: &Change) -> Mem<()>
        ensures { OnOk result (self.new ≡ change_in self.old change.now.0 change.now.1) }
    {
        match &change.1 {
            Some(value) => {
                let key = change.0.copy(self.alloc)?;
                let value = value.copy(self.alloc)?;
                self.set(key, value)
            }
            None => {
                self.remove(&change.0);
                Ok(())
            }
        }
    }

    /// Does all these writes and removals.
    pub fn change_all(&mut self, changes: &[Change]) -> Mem<()>
        ensures { OnOk result (self.new ≡ changes_in self.old changes.now) }
    {
        for change in changes {
            self.change(change)?;
        }
        Ok(())
    }

    /// The entries in the byte order of their keys.
    pub fn into_entries(self) -> Mem<List<(LongText, LongText)>>
        ensures { IfOk result (λ entries. entries ≡ self) }
    {
        let PlainMap { mut map, alloc } = self;
        map.sort_keys()?;
        let mut entries = List::with_capacity(alloc, map.len())?;
        for entry in map {
            entries.push(entry)?;
        }
        Ok(entries)
    }
}
