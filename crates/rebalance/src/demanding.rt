//! What a mover asks for once a version is open.

ghost use Rattle.std.specs.Prelude.{◌≡◌, ◌++◌, IfOk, OnOk};
ghost use Rattle.act_rows.specs.Exchange.{after_send_demands, demand_outs, demands_of};
ghost use Rattle.act_rows.specs.Steps.{rows_of};
ghost use Rattle.ignite_types.specs.Placement.{first_owner};

use ignite_types::{List, Mem, Message, NodeId, Out, Row, TopVer};
use node_steps::{Node, has_node};
use std::alloc::Global;

/// The rows of the installed map.
pub(crate) fn rows(node: &Node) -> &[Row]
    ensures { result.now ≡ rows_of node.now }
{
    match node.installed() {
        Some(map) => map.rows.as_slice(),
        None => &[],
    }
}

/// Demand for one partition goes to its primary, where this node moves it.
fn push_demand(outs: &mut List<Out>, me: NodeId, top: TopVer, part: u32, row: &Row) -> Mem<()>
    ensures { OnOk result (outs.new ≡ outs.old ++ demands_of me top part row.now (first_owner row.now)) }
{
    let Some(to) = row.first_owner() else {
        return Ok(());
    };
    if has_node(row.movers.as_slice(), me) {
        outs.push(Out {
            to,
            msg: Message::Demand {
                top,
                part,
                after: None,
            },
        })
    } else {
        Ok(())
    }
}

/// Demand for each partition that this node moves.
fn demand_outs(alloc: Global, me: NodeId, top: TopVer, rows: &[Row]) -> Mem<List<Out>>
    ensures { IfOk result (λ outs. outs ≡ demand_outs me top 0 rows.now) }
{
    let mut outs = List::new(alloc);
    let mut part = 0u32;
    for row in rows {
        push_demand(&mut outs, me, top, part, row)?;
        part = part.saturating_add(1);
    }
    Ok(outs)
}

/// The copies of movers begin to be filled.
pub fn demand(node: &mut Node) -> Mem<()>
    ensures { OnOk result (node.new ≡ after_send_demands node.old) }
{
    let outs = demand_outs(node.alloc, node.me(), node.installed_top(), rows(node))?;
    node.send_all(outs)
}
