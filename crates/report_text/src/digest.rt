//! What the report takes from a journal's records.

ghost use Rattle.std.specs.Prelude.{◌≡◌, OnOk, IfOk};
ghost use Rattle.report_text.specs.Digests as digests;

use discovery_order::first_top;
use ignite_types::{Answer, Edge, Group, List, Mem, NoLoss, Rec, TopVer, TxId};
use std::alloc::Global;
use std::cmp::Ordering;

/// An answer, and the number of the session that it was given to.
#[derive(Debug, PartialEq, Drop)]
pub struct Given {
    pub session: u32,
    pub answer: Answer,
}

/// A deadlock that was found: the transaction that timed out, and the waits of the circle, its own first.
#[derive(Debug, PartialEq, Drop)]
pub struct Deadlock {
    pub tx: TxId,
    pub edges: List<Edge>,
}

/// What the report takes from a journal's records, each in their order.
#[derive(Debug, PartialEq, Drop)]
pub struct Digest {
    pub answers: List<Given>,
    /// The plan steps done or refused, by their places in the plan, from 0.
    pub steps: List<(usize, Option<NoLoss>)>,
    pub deadlocks: List<Deadlock>,
    /// The highest version that was opened.
    pub top: TopVer,
}

/// The later of two versions.
fn later(a: TopVer, b: TopVer) -> TopVer
    ensures { result ≡ digests.later_version a b }
{
    match a.cmp(&b) {
        Ordering::Less => b,
        _ => a,
    }
}

impl Digest {
    /// That of no records.
    fn new(alloc: Global) -> Digest
        ensures { result ≡ digests.no_digest }
    {
        Digest {
            answers: List::new(alloc),
            steps: List::new(alloc),
            deadlocks: List::new(alloc),
            top: first_top(),
        }
    }

    /// A search that found no circle adds nothing.
    fn add_search(&mut self, alloc: Global, tx: TxId, edges: &[Edge]) -> Mem<()>
        ensures { OnOk result (self.new ≡ digests.with_search self.old tx edges.now) }
    {
        if edges.is_empty() {
            return Ok(());
        }
        let edges = List::from_slice(alloc, edges)?;
        self.deadlocks.push(Deadlock { tx, edges })
    }

    /// Takes what the report needs from these records.
    fn add_all(&mut self, alloc: Global, recs: &[Rec]) -> Mem<()>
        ensures { OnOk result (self.new ≡ digests.with_recs self.old recs.now) }
    {
        for rec in recs {
            match rec {
                Rec::Answer { session, answer } => self.answers.push(Given {
                    session: *session,
                    answer: *answer,
                })?,
                Rec::Planned { place, refused } => self.steps.push((*place, *refused))?,
                Rec::Searched { tx, edges } => self.add_search(alloc, *tx, edges.as_slice())?,
                Rec::Opened { top } => self.top = later(self.top, *top),
                _ => {}
            }
        }
        Ok(())
    }
}

/// What the report takes from these groups' records.
pub fn digest_of(alloc: Global, groups: &[Group]) -> Mem<Digest>
    ensures { IfOk result (λ found. found ≡ digests.digest groups.now) }
{
    let mut found = Digest::new(alloc);
    for group in groups {
        found.add_all(alloc, group.recs.as_slice())?;
    }
    Ok(found)
}
