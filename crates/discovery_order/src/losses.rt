//! Which losses are refused.

ghost use Rattle.std.specs.Prelude.{◌≡◌, option_copied};
ghost use Rattle.part_model.specs.Directory.{first_bare, one_remains, refusal_of_loss, remains, survives};
ghost use Rattle.part_model.specs.NextMap.{is_member};

use crate::directory::Directory;
use ignite_types::{Member, NoLoss, NodeId, PartMap, Row};

/// Whether a node is one of these members.
fn is_member(members: &[Member], node: NodeId) -> bool
    ensures { result ≡ is_member members.now node }
{
    members.iter().any(|member| node == member.node)
}

/// Whether a node is one of these members, and not the one that is lost.
fn remains(members: &[Member], lost: NodeId, node: NodeId) -> bool
    ensures { result ≡ remains members.now lost node }
{
    if node == lost {
        false
    } else {
        is_member(members, node)
    }
}

/// Whether one of these owners remains.
fn one_remains(members: &[Member], lost: NodeId, owners: &[NodeId]) -> bool
    ensures { result ≡ one_remains members.now lost owners.now }
{
    for owner in owners {
        if remains(members, lost, *owner) {
            return true;
        }
    }
    false
}

/// Whether a partition that runs keeps a living owner.
fn survives(members: &[Member], lost: NodeId, row: &Row) -> bool
    ensures { result ≡ survives members.now lost row.now }
{
    match row.owners.as_slice() {
        [] => true,
        owners => one_remains(members, lost, owners),
    }
}

/// The first of these partitions that runs and would be without a living owner.
fn first_bare(members: &[Member], lost: NodeId, rows: &[Row]) -> Option<u32>
    ensures { result ≡ first_bare members.now lost 0 rows.now }
{
    let mut part = 0u32;
    for row in rows {
        if !survives(members, lost, row) {
            return Some(part);
        }
        part = part.saturating_add(1);
    }
    None
}

impl Directory {
    /// Why the loss of a node is refused, `best` being the highest map installed at a survivor: it is no member, or a
    /// partition would be left without an owner.
    pub fn loss_refused(&self, node: NodeId, best: Option<&PartMap>) -> Option<NoLoss>
        ensures { result ≡ refusal_of_loss self.now node (option_copied best.entry) }
    {
        if !is_member(self.members(), node) {
            return Some(NoLoss::NotIn);
        }
        match best {
            Some(best) => match first_bare(self.members(), node, best.rows.as_slice()) {
                Some(part) => Some(NoLoss::LeavesPartition(part)),
                None => None,
            },
            None => Some(NoLoss::LeavesPartition(0)),
        }
    }
}
