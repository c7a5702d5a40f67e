//! The count itself.

ghost use Rattle.std.specs.Prelude.{◌≡◌, [], IfOk, OnErr, OnOk};
ghost use Rattle.part_model.specs.Drain.{count_below, count_of, with_one_done, with_one_more};

use ignite_types::{Mem, TopVer};
use ordered_table::Table;
use std::alloc::Global;
use std::marker::Model;

/// How much work is open at each topology version. Few versions have open work at a time, so it is kept in their order:
/// a change takes logarithmic time in their number. A count stands still at the end of 64 bits.
#[derive(Debug, Drop)]
pub struct DrainCount {
    alloc: Global,
    counts: Table<TopVer, u64>,
}

impl Model for DrainCount {
    ghost use Rattle.part_model.specs.Drain.{DrainCount as Counts};

    ghost Value = { Counts };

    ghost view = { λ drain. drain.counts };
}

impl DrainCount {
    /// No open work; it takes no memory.
    pub fn new(alloc: Global) -> DrainCount
        ensures { result ≡ [] }
    {
        DrainCount {
            alloc,
            counts: Table::new(alloc),
        }
    }

    fn count_of(&self, top: &TopVer) -> u64
        ensures { result ≡ count_of self.now top.now }
    {
        match self.counts.get(top) {
            Some(count) => *count,
            None => 0,
        }
    }

    /// One more piece of work is open at this version. Where there is no memory for the version's count, nothing changes.
    pub fn add(&mut self, top: TopVer) -> Mem<()>
        ensures ok { OnOk result (self.new ≡ with_one_more self.old top) }
        ensures err { OnErr result (self.new ≡ self.old) }
    {
        let count = self.count_of(&top).saturating_add(1);
        self.counts.set(top, count)
    }

    /// One piece of work less is open at this version; the last one takes the version's count out. It takes no memory, and
    /// changes nothing where no work is open.
    pub fn done(&mut self, top: TopVer)
        ensures { self.new ≡ with_one_done self.old top }
    {
        let count = self.count_of(&top);
        if count > 1 {
            let _old = self.counts.replace(top, count - 1);
        } else {
            let _last = self.counts.remove(&top);
        }
    }

    /// How much work is open at the versions below this one. It takes linear time in the number of versions with open work.
    pub fn below(&self, top: TopVer) -> u64
        ensures { result ≡ count_below self.now top }
    {
        let mut open = 0u64;
        for (version, count) in self.counts.as_slice() {
            if *version < top {
                open = open.saturating_add(*count);
            }
        }
        open
    }

    /// The same counts once more.
    pub fn copy(&self) -> Mem<DrainCount>
        ensures { IfOk result (λ copy. copy ≡ self.now) }
    {
        let alloc = self.alloc;
        let mut counts = Table::new(alloc);
        for (top, count) in self.counts.as_slice() {
            counts.set(*top, *count)?;
        }
        Ok(DrainCount { alloc, counts })
    }
}

#[cfg(test)]
mod tests {
    use super::*;
    use std::test::Fail;

    #[derive(Clone, Copy, Debug)]
    enum Act {
        Add,
        Done,
    }

    fn apply(drain: &mut DrainCount, act: Act, top: TopVer) -> Mem<()> {
        match act {
            Act::Add => drain.add(top),
            Act::Done => {
                drain.done(top);
                Ok(())
            }
        }
    }

    /// Each row: what is done at the version `major.minor`, and what is open below 2.0 and below 2.1 from then on.
    #[test]
    fn counts_what_is_open(rt: HostRuntime) -> Result<(), Fail> {
        let rows = [
            (Act::Add, 1, 0, 1, 1),
            (Act::Done, 1, 0, 0, 0),
            (Act::Done, 1, 0, 0, 0),
            (Act::Add, 2, 0, 0, 1),
            (Act::Add, 1, 1, 1, 2),
            (Act::Add, 1, 1, 2, 3),
            (Act::Add, 2, 1, 2, 3),
            (Act::Done, 1, 1, 1, 2),
            (Act::Done, 2, 0, 1, 1),
        ];
        let mut drain = DrainCount::new(rt.alloc());
        for (act, major, minor, second, third) in rows {
            apply(&mut drain, act, TopVer { major, minor })?;
            let copy = drain.copy()?;
            let below = copy.below(TopVer { major: 2, minor: 0 });
            assert_eq!(rt; below, second, "{act:?} {major}.{minor}");
            let below = copy.below(TopVer { major: 2, minor: 1 });
            assert_eq!(rt; below, third, "{act:?} {major}.{minor}");
        }
        Ok(())
    }
}
