//! A node reads the topology's events.

ghost use Rattle.std.specs.Prelude.{◌≡◌, OnOk, fold};
ghost use Rattle.act_rows.specs.Exchange.{after_learn, after_learn_all};

use ignite_types::{Mem, TopoEvent};
use node_steps::Node;

/// Reads each of these events.
fn learn_each(node: &mut Node, events: &[TopoEvent]) -> Mem<()>
    ensures { OnOk result (node.new ≡ fold after_learn node.old events.now) }
{
    for event in events {
        node.learn(event)?;
    }
    Ok(())
}

/// What a joiner knows of the events before its own Join, and the clock.
pub fn learn_all(node: &mut Node, events: &[TopoEvent], now: u64) -> Mem<()>
    ensures { OnOk result (node.new ≡ after_learn_all node.old events.now now) }
{
    learn_each(node, events)?;
    node.set_clock(now);
    Ok(())
}
