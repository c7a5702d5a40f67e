//! A version opens at a node.

ghost use Rattle.std.specs.Prelude.{◌≡◌, OnOk};
ghost use Rattle.act_rows.specs.Exchange.{after_opens};

use client_sessions::start_all;
use ignite_types::{Mem, Rec, TopVer};
use node_steps::Node;
use rebalance::demand;

/// The version is open here: what waits for it starts, and a mover asks for its partitions.
pub fn on_opens(node: &mut Node, top: TopVer) -> Mem<()>
    ensures { OnOk result (node.new ≡ after_opens node.old top) }
{
    node.set_opened(top);
    node.note(Rec::Opened { top })?;
    start_all(node)?;
    demand(node)
}
