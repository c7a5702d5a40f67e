//! Messages that a node sends, and records that it notes.

ghost use Rattle.std.specs.Prelude.{◌≡◌, OnOk, IfOk};
ghost use Rattle.act_rows.specs.Decisions.{backup_finish_outs};
ghost use Rattle.act_rows.specs.Steps.{outs_to, with_note, with_out, with_out_to_oldest, with_outs};

use crate::node::Node;
use ignite_types::{List, Mem, Message, NodeId, Out, Rec, TxId};
use plain_copies::Duplicate;
use std::alloc::Global;

/// One message to each of these nodes.
pub fn outs_to(alloc: Global, nodes: &[NodeId], message: &Message) -> Mem<List<Out>>
    ensures { IfOk result (λ outs. outs ≡ outs_to nodes.now message.now) }
{
    let mut outs = List::new(alloc);
    for node in nodes {
        let to = *node;
        let msg = message.copy(alloc)?;
        outs.push(Out { to, msg })?;
    }
    Ok(outs)
}

/// BackupFinish for one primary's shares, to each of these holders.
pub fn backup_finish_outs(
    alloc: Global,
    tx: TxId,
    primary: NodeId,
    commit: bool,
    holders: &[NodeId],
) -> Mem<List<Out>>
    ensures { IfOk result (λ outs. outs ≡ backup_finish_outs tx primary commit holders.now) }
{
    let message = Message::BackupFinish {
        tx,
        primary,
        commit,
    };
    outs_to(alloc, holders, &message)
}

impl Node {
    /// Puts a message into the outbox.
    pub fn send(&mut self, to: NodeId, msg: Message) -> Mem<()>
        ensures { OnOk result (self.new ≡ with_out self.old to msg) }
    {
        self.state.outbox.push(Out { to, msg })
    }

    /// Puts messages into the outbox.
    pub fn send_all(&mut self, outs: List<Out>) -> Mem<()>
        ensures { OnOk result (self.new ≡ with_outs self.old outs) }
    {
        self.state.outbox.append(outs)
    }

    /// Sends a message to the oldest member, where there is one.
    pub fn send_to_oldest(&mut self, msg: Message, oldest: Option<NodeId>) -> Mem<()>
        ensures { OnOk result (self.new ≡ with_out_to_oldest self.old msg oldest) }
    {
        match oldest {
            Some(to) => self.send(to, msg),
            None => Ok(()),
        }
    }

    /// Notes a record.
    pub fn note(&mut self, rec: Rec) -> Mem<()>
        ensures { OnOk result (self.new ≡ with_note self.old rec) }
    {
        self.state.noted.push(rec)
    }
}
