//! The test of an optimistic prepare, and the locks that it takes.

ghost use Rattle.std.specs.Prelude.{◌≡◌, IfOk, OnOk};
ghost use Rattle.act_rows.specs.Locks.{after_own_each};
ghost use Rattle.act_rows.specs.Primary.{failed_check, first_changed, wanted_keys};

use ignite_types::{Fail, Key, List, Mem, Rec, TopVer, TxId, Wanted};
use node_steps::{Node, version_of};
use std::alloc::Global;
use std::cmp::Ordering;

/// The first remembered version that differs from the copy's.
fn first_changed(node: &Node, wanted: &[Wanted]) -> Option<Fail>
    ensures { result ≡ first_changed node.now wanted.now }
{
    for want in wanted {
        let has = version_of(&node.found_at(&want.key));
        if let Some(had) = want.had {
            match had.cmp(&has) {
                Ordering::Equal => {}
                _ => {
                    let key = want.key;
                    return Some(Fail::Changed { key, had, has });
                }
            }
        }
    }
    None
}

fn wanted_keys(alloc: Global, wanted: &[Wanted]) -> Mem<List<Key>>
    ensures { IfOk result (λ keys. keys ≡ wanted_keys wanted.now) }
{
    let mut keys = List::new(alloc);
    for want in wanted {
        keys.push(want.key)?;
    }
    Ok(keys)
}

/// The test of an optimistic prepare: another owner first, then a changed version.
pub fn check(node: &Node, tx: &TxId, wanted: &[Wanted]) -> Mem<Option<Fail>>
    ensures { IfOk result (λ fail. fail ≡ failed_check node.now tx.now wanted.now) }
{
    let keys = wanted_keys(node.alloc, wanted)?;
    match node.first_blocked(keys.as_slice(), tx) {
        Some((key, holder)) => Ok(Some(Fail::Candidate { key, holder })),
        None => Ok(first_changed(node, wanted)),
    }
}

/// A prepare in optimistic mode owns its keys.
pub fn own_each(node: &mut Node, tx: TxId, top: TopVer, wanted: &[Wanted]) -> Mem<()>
    ensures { OnOk result (node.new ≡ after_own_each node.old tx top wanted.now) }
{
    for want in wanted {
        node.enqueue(tx, &want.key)?;
        node.note(Rec::Grant {
            tx,
            top,
            key: want.key,
        })?;
    }
    Ok(())
}
