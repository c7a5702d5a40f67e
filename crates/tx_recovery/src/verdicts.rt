//! Verdicts, by what the members report of a transaction.

ghost use Rattle.std.specs.Prelude.{◌≡◌, ◌++◌, IfOk};
ghost use Rattle.part_model.specs.Verdicts.{all_shares_committed, is_committed_share, is_committed_state, is_ready, is_ready_in, is_settled, members_ready, reported_shares, shares_named, verdict};

use ignite_types::{List, Mem, Member, NodeId, Orphan, Share, ShareState};
use node_steps::is_member;
use std::alloc::Global;

/// All that the lists report of shares.
fn reported(alloc: Global, orphans: &[Orphan]) -> Mem<List<(Share, ShareState)>>
    ensures { IfOk result (λ held. held ≡ reported_shares orphans.now) }
{
    let mut held = List::new(alloc);
    for orphan in orphans {
        held.append(List::from_slice(alloc, orphan.held.as_slice())?)?;
    }
    Ok(held)
}

fn is_committed(state: ShareState) -> bool
    ensures { result ≡ is_committed_state state }
{
    match state {
        ShareState::Committed => true,
        _ => false,
    }
}

fn is_ready(state: ShareState) -> bool
    ensures { result ≡ is_ready state }
{
    match state {
        ShareState::Prepared => true,
        ShareState::Committed => true,
        _ => false,
    }
}

/// Whether some share is reported Committed.
fn is_committed_in(held: &[(Share, ShareState)]) -> bool
    ensures { result ≡ is_committed_share held.now }
{
    for (_, state) in held {
        if is_committed(*state) {
            return true;
        }
    }
    false
}

fn all_committed(held: &[(Share, ShareState)]) -> bool
    ensures { result ≡ all_shares_committed held.now }
{
    for (_, state) in held {
        if !is_committed(*state) {
            return false;
        }
    }
    true
}

/// Whether the share is reported Prepared or Committed.
fn is_ready_in(held: &[(Share, ShareState)], share: &Share) -> bool
    ensures { result ≡ is_ready_in held.now share.now }
{
    for (other, state) in held {
        if *other == *share && is_ready(*state) {
            return true;
        }
    }
    false
}

/// The shares of the transaction, as the first list that names them has them.
pub(crate) fn shares_named(orphans: &[Orphan]) -> &[Share]
    ensures { result.now ≡ shares_named orphans.now }
{
    for orphan in orphans {
        if orphan.shares.len() != 0 {
            return orphan.shares.as_slice();
        }
    }
    &[]
}

/// Whether some share is reported, and every reported one is Committed: nothing is left to do.
pub(crate) fn is_settled(alloc: Global, orphans: &[Orphan]) -> Mem<bool>
    ensures { IfOk result (λ settled. settled ≡ is_settled orphans.now) }
{
    let held = reported(alloc, orphans)?;
    Ok(held.len() != 0 && all_committed(held.as_slice()))
}

/// Whether each of these shares whose holder is a member is reported Prepared or Committed.
fn members_ready(held: &[(Share, ShareState)], members: &[Member], shares: &[Share]) -> bool
    ensures { result ≡ members_ready held.now members.now shares.now }
{
    for share in shares {
        if is_member(members, share.holder) && !is_ready_in(held, share) {
            return false;
        }
    }
    true
}

/// Commit or not: the verdict kept from an earlier round; commit, where a share is reported Committed, or where shares are
/// named and each whose holder is a member is reported Prepared or Committed; else rollback.
pub fn verdict(
    alloc: Global,
    kept: Option<bool>,
    orphans: &[Orphan],
    members: &[Member],
) -> Mem<bool>
    ensures { IfOk result (λ commit. commit ≡ verdict kept orphans.now members.now) }
{
    if let Some(kept) = kept {
        return Ok(kept);
    }
    let held = reported(alloc, orphans)?;
    if is_committed_in(held.as_slice()) {
        return Ok(true);
    }
    let shares = shares_named(orphans);
    Ok(shares.len() != 0 && members_ready(held.as_slice(), members, shares))
}
