//! The waits that a primary tells a search.

ghost use Rattle.std.specs.Prelude.{◌≡◌, OnOk};
ghost use Rattle.act_rows.specs.Locks.{after_edges};

use ignite_types::{List, Mem, Message, NodeId, Rec, TxId};
use node_steps::Node;

/// Edges: the waits of the listed transactions at this act.
pub fn on_edges(node: &mut Node, from: NodeId, tx: TxId, round: u32, of: &[TxId]) -> Mem<()>
    ensures { OnOk result (node.new ≡ after_edges node.old from tx round of.now) }
{
    let waits = node.edges_of(of)?;
    let noted = List::from_slice(node.alloc, waits.as_slice())?;
    node.note(Rec::Waits {
        tx,
        round,
        waits: noted,
    })?;
    let act = node.acts();
    node.send(
        from,
        Message::EdgesOk {
            tx,
            round,
            act,
            waits,
        },
    )
}
