//! Changes of the topology, each with the version that it makes, or why it is refused.

ghost use Rattle.std.specs.Prelude.{◌≡◌, OnOk, OnErr, IfOk};
ghost use Rattle.part_model.specs.Directory.{directory_after_join, with_event};
ghost use Rattle.discovery_order.specs.Changes.{JoinRefused, LeftRefused};
ghost use Rattle.discovery_order.specs.declared.changes.JoinFault.TheVariants as join_fault;
ghost use Rattle.discovery_order.specs.declared.changes.LeftFault.TheVariants as left_fault;
ghost use Rattle.ignite_types.specs.declared.journal.TopoEvent.TheVariants as topo;

use crate::directory::Directory;
use ignite_types::{Mem, Member, NoLoss, NoMemory, NodeId, PartMap, TopVer, TopoEvent};
use std::alloc::Global;
use thiserror::Error;

/// Why a node does not join: its number was in before, or memory ran out.
#[derive(Clone, Copy, Debug, PartialEq, Eq, Error)]
pub enum JoinFault {
    #[error("a node of this number was in before")]
    AlreadyIn,
    #[error("no memory is left")]
    NoMemory,
}

impl From<NoMemory> for JoinFault {
    ghost from_gives = { λ _ fault. fault ≡ join_fault.NoMemory };

    fn from(_: NoMemory) -> JoinFault {
        JoinFault::NoMemory
    }
}

/// Why the loss of a node is refused, or that memory ran out.
#[derive(Clone, Copy, Debug, PartialEq, Eq, Error)]
pub enum LeftFault {
    #[error("the loss is refused: {0:?}")]
    Refused(NoLoss),
    #[error("no memory is left")]
    NoMemory,
}

impl From<NoMemory> for LeftFault {
    ghost from_gives = { λ _ fault. fault ≡ left_fault.NoMemory };

    fn from(_: NoMemory) -> LeftFault {
        LeftFault::NoMemory
    }
}

impl Directory {
    /// A member joins, whose number was never in.
    pub fn join(&mut self, alloc: Global, member: Member) -> Result<TopVer, JoinFault>
        ensures ok { OnOk result (self.new ≡ directory_after_join self.old member) }
        ensures version { IfOk result (λ top. top ≡ self.new.last) }
        ensures err { OnErr result (self.new ≡ self.old) }
        ensures refused { JoinRefused self.old member result }
    {
        if self.was_ever_in(member.node) {
            return Err(JoinFault::AlreadyIn);
        }
        self.append_join(alloc, member)?;
        Ok(self.last())
    }

    /// A member is lost, `best` being the highest map installed at a survivor. Refused where it is no member; then where a
    /// partition would be left without an owner, of which the least is named, or 0 where there is no map.
    pub fn leave(
        &mut self,
        alloc: Global,
        node: NodeId,
        best: Option<&PartMap>,
    ) -> Result<TopVer, LeftFault>
        ensures ok { OnOk result (self.new ≡ with_event self.old (topo.Left node)) }
        ensures version { IfOk result (λ top. top ≡ self.new.last) }
        ensures err { OnErr result (self.new ≡ self.old) }
        ensures refused { LeftRefused self.old node best.entry result }
    {
        if let Some(fault) = self.loss_refused(node, best) {
            return Err(LeftFault::Refused(fault));
        }
        self.append(alloc, &TopoEvent::Left(node))?;
        Ok(self.last())
    }

    /// The late switch of owners.
    pub fn append_minor(&mut self, alloc: Global) -> Mem<TopVer>
        ensures ok { OnOk result (self.new ≡ with_event self.old topo.Minor) }
        ensures version { IfOk result (λ top. top ≡ self.new.last) }
        ensures err { OnErr result (self.new ≡ self.old) }
    {
        self.append(alloc, &TopoEvent::Minor)?;
        Ok(self.last())
    }

    /// A cache starts.
    pub fn append_start(&mut self, alloc: Global, cache: u32) -> Mem<TopVer>
        ensures ok { OnOk result (self.new ≡ with_event self.old (topo.Start cache)) }
        ensures version { IfOk result (λ top. top ≡ self.new.last) }
        ensures err { OnErr result (self.new ≡ self.old) }
    {
        self.append(alloc, &TopoEvent::Start(cache))?;
        Ok(self.last())
    }

    /// A cache stops.
    pub fn append_stop(&mut self, alloc: Global, cache: u32) -> Mem<TopVer>
        ensures ok { OnOk result (self.new ≡ with_event self.old (topo.Stop cache)) }
        ensures version { IfOk result (λ top. top ≡ self.new.last) }
        ensures err { OnErr result (self.new ≡ self.old) }
    {
        self.append(alloc, &TopoEvent::Stop(cache))?;
        Ok(self.last())
    }
}
