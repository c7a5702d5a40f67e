//! What the entries so far leave.

ghost use Rattle.std.specs.Prelude.{◌≡◌, IfOk, OnOk};
ghost use Rattle.std.specs.Option.{option_copied};
ghost use Rattle.audit_core.specs.Histories.{equal_values};
ghost use Rattle.audit_core.specs.Verdict.{entry_fault, first_wrong_read, ledger_after, new_ledger};

use crate::history::{Change, HistoryEntry};
use crate::tables::{NameSet, PlainMap};
use crate::text::LongText;
use crate::verdict::EntryFault;
use ignite_types::{Mem, TopVer};
use std::alloc::Global;

/// The names of the entries so far, the version of the last one, and the map after them.
#[derive(Debug, Drop)]
pub struct Ledger {
    pub names: NameSet,
    pub top: TopVer,
    pub map: PlainMap,
}

/// Whether both are absent, or both are the same text.
pub fn equal_values(left: Option<&LongText>, right: Option<&LongText>) -> bool
    ensures { result ≡ equal_values (option_copied left.entry) (option_copied right.entry) }
{
    match (left, right) {
        (None, None) => true,
        (Some(left), Some(right)) => left == right,
        _ => false,
    }
}

impl Ledger {
    /// Before the first entry.
    pub fn new(alloc: Global) -> Ledger
        ensures { result ≡ new_ledger }
    {
        Ledger {
            names: NameSet::new(alloc),
            top: TopVer { major: 0, minor: 0 },
            map: PlainMap::new(alloc),
        }
    }

    /// The key of the first read that is not the map's value.
    fn bad_read(&self, alloc: Global, reads: &[Change]) -> Mem<Option<LongText>>
        ensures { IfOk result (λ key. key ≡ first_wrong_read self.now.map reads.now) }
    {
        for read in reads {
            if !equal_values(self.map.get(&read.0), read.1.as_ref()) {
                let key = read.0.copy(alloc)?;
                return Ok(Some(key));
            }
        }
        Ok(None)
    }

    /// The first fault of the next entry.
    pub fn fault_of(&self, alloc: Global, entry: &HistoryEntry) -> Mem<Option<EntryFault>>
        ensures { IfOk result (λ fault. fault ≡ entry_fault self.now entry.now) }
    {
        if self.names.contains(&entry.tx) {
            return Ok(Some(EntryFault::Twice));
        }
        if entry.top < self.top {
            return Ok(Some(EntryFault::VersionFalls));
        }
        match self.bad_read(alloc, entry.reads.as_slice())? {
            Some(key) => Ok(Some(EntryFault::Read(key))),
            None => Ok(None),
        }
    }

    /// Takes the next entry in.
    pub fn take(&mut self, alloc: Global, entry: &HistoryEntry) -> Mem<()>
        ensures { OnOk result (self.new ≡ ledger_after self.old entry.now) }
    {
        let name = entry.tx.copy(alloc)?;
        self.names.add(name)?;
        self.top = entry.top;
        self.map.change_all(entry.writes.as_slice())
    }
}
