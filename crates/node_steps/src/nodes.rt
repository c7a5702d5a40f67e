//! Nodes: who is live, who holds what, and who is the oldest.

ghost use Rattle.std.specs.Prelude.{◌≡◌, OnOk, IfOk, filter, map};
ghost use Rattle.part_model.specs.Directory.{node_set, oldest_member};
ghost use Rattle.part_model.specs.NextMap.{has_node, is_member};
ghost use Rattle.part_model.specs.Queues.{with_members};
ghost use Rattle.ordered_set.specs.Members.{has};
ghost use Rattle.ignite_types.specs.Names.{node_cmp};
ghost use Rattle.act_rows.specs.Recovery.{with_nodes};
ghost use Rattle.act_rows.specs.Steps.{holders_for, is_live, is_oldest, live_among, live_holders, lost_among, oldest_seen};

use crate::node::Node;
use ignite_types::{List, Mem, Member, NodeId, Share, TxId};
use ordered_set::Set;
use std::alloc::Global;

/// Whether a node is one of these.
pub fn has_node(nodes: &[NodeId], node: NodeId) -> bool
    ensures { result ≡ has_node nodes.now node }
{
    nodes.iter().any(|other| node == *other)
}

/// Whether a node is one of these members.
pub fn is_member(members: &[Member], node: NodeId) -> bool
    ensures { result ≡ is_member members.now node }
{
    members.iter().any(|member| node == member.node)
}

/// The first of these members, by age.
pub fn oldest_member(members: &[Member]) -> Option<NodeId>
    ensures { result ≡ oldest_member members.now }
{
    match members.get(0) {
        Some(member) => Some(member.node),
        None => None,
    }
}

/// Puts these members into a set of nodes.
pub fn add_members(set: &mut Set<NodeId>, members: &[Member]) -> Mem<()>
    ensures { OnOk result (set.new ≡ node_set set.old members.now) }
{
    for member in members {
        set.insert(member.node)?;
    }
    Ok(())
}

/// Puts these nodes into a set.
pub fn add_nodes(set: &mut Set<NodeId>, nodes: &[NodeId]) -> Mem<()>
    ensures { OnOk result (set.new ≡ with_nodes set.old nodes.now) }
{
    for node in nodes {
        set.insert(*node)?;
    }
    Ok(())
}

/// Puts these transactions into a set.
pub fn add_transactions(set: &mut Set<TxId>, txs: &[TxId]) -> Mem<()>
    ensures { OnOk result (set.new ≡ with_members set.old txs.now) }
{
    for tx in txs {
        set.insert(*tx)?;
    }
    Ok(())
}

/// The holders of a primary's shares.
pub fn holders_for(alloc: Global, shares: &[Share], primary: NodeId) -> Mem<List<NodeId>>
    ensures { IfOk result (λ holders. holders ≡ holders_for shares.now primary) }
{
    let mut holders = List::new(alloc);
    for share in shares {
        if share.primary == primary {
            holders.push(share.holder)?;
        }
    }
    Ok(holders)
}

impl Node {
    /// Whether this node has not seen the other one leave.
    pub fn is_live(&self, node: NodeId) -> bool
        ensures { result ≡ is_live self.now node }
    {
        !self.state.left.contains(&node)
    }

    /// Those of these nodes that are live.
    pub fn live_among(&self, nodes: &[NodeId]) -> Mem<List<NodeId>>
        ensures { IfOk result (λ live. live ≡ live_among self.now nodes.now) }
    {
        let mut live = List::new(self.alloc);
        for node in nodes {
            if self.is_live(*node) {
                live.push(*node)?;
            }
        }
        Ok(live)
    }

    /// Those of these nodes that were seen to leave.
    pub fn lost_among(&self, nodes: &[NodeId]) -> Mem<List<NodeId>>
        ensures { IfOk result (λ lost. lost ≡ lost_among self.now nodes.now) }
    {
        let mut lost = List::new(self.alloc);
        for node in nodes {
            if !self.is_live(*node) {
                lost.push(*node)?;
            }
        }
        Ok(lost)
    }

    /// The live holders of a primary's shares.
    pub fn live_holders(&self, shares: &[Share], primary: NodeId) -> Mem<List<NodeId>>
        ensures { IfOk result (λ live. live ≡ live_holders self.now shares.now primary) }
    {
        let holders = holders_for(self.alloc, shares, primary)?;
        self.live_among(holders.as_slice())
    }

    /// The oldest member of the last version seen.
    pub fn oldest(&self) -> Option<NodeId>
        ensures { result ≡ oldest_seen self.now }
    {
        oldest_member(self.state.members.as_slice())
    }

    /// Whether this node is that one.
    pub fn is_oldest(&self) -> bool
        ensures { result ≡ is_oldest self.now }
    {
        match self.oldest() {
            Some(oldest) => self.state.me == oldest,
            None => false,
        }
    }
}
