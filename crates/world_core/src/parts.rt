//! A declared node, and what happens to it beside its acts.

ghost use Rattle.std.specs.Prelude.{◌≡◌, OnOk, IfOk};
ghost use Rattle.act_rows.specs.Acts.{join_act};
ghost use Rattle.tx_model.specs.World.{is_alive, outlives, part_after_loss, part_at_moment, parts_after_loss, parts_at_moment};

use ignite_types::{List, Mem, NodeId, Rec, TopoEvent};
use node_core::{Node, join};
use node_state::Life;
use partition_exchange::drop_single;
use std::marker::Model;

/// A declared node, which contracts see as its state and its life.
#[derive(Debug, Drop)]
pub struct Part {
    pub(crate) node: Node,
    pub(crate) life: Life,
}

impl Model for Part {
    ghost use Rattle.tx_model.specs.World.{Part as PartValue};

    ghost Value = { PartValue };

    ghost view = { λ p. record { node = p.node; life = p.life } };
}

/// Whether the node has joined and was not lost.
pub(crate) fn is_alive(life: Life) -> bool
    ensures { result ≡ is_alive life }
{
    match life {
        Life::Alive => true,
        _ => false,
    }
}

impl Part {
    /// The node's number.
    pub(crate) fn id(&self) -> NodeId
        ensures { result ≡ self.now.node.me }
    {
        self.node.me()
    }

    /// Whether the node is alive, and not the one that is lost.
    pub(crate) fn outlives(&self, lost: NodeId) -> bool
        ensures { result ≡ outlives lost self.now }
    {
        if is_alive(self.life) {
            self.node.me() != lost
        } else {
            false
        }
    }

    /// A lost node keeps its state; every other one that is alive discards its Singles.
    fn lose(&mut self, lost: NodeId)
        ensures { self.new ≡ part_after_loss lost self.old }
    {
        if self.node.me() == lost {
            self.life = Life::Gone;
        } else if is_alive(self.life) {
            drop_single(&mut self.node, lost);
        }
    }

    /// The node joins: it learns these events and the clock, and reads its own Join.
    pub(crate) fn join(&mut self, events: &[TopoEvent], now: u64, own: &TopoEvent) -> Mem<List<Rec>>
        ensures part { OnOk result (self.new ≡ record {
          node = (join_act self.old.node events.now now own.now).state;
          life =
              Life.Alive;
        }) }
        ensures recs { IfOk result (λ recs. recs ≡ (join_act self.old.node events.now now own.now).recs) }
    {
        let recs = join(&mut self.node, events, now, own)?;
        self.life = Life::Alive;
        Ok(recs)
    }

    /// The clock goes on at a node that is alive.
    fn tick(&mut self, to: u64)
        ensures { self.new ≡ part_at_moment to self.old }
    {
        if is_alive(self.life) {
            self.node.set_clock(to);
        }
    }
}

/// A node is lost.
pub(crate) fn lose_each(parts: &mut Vec<Part>, lost: NodeId)
    ensures { parts.new.items ≡ parts_after_loss lost parts.old.items }
{
    for part in parts.iter_mut() {
        part.lose(lost);
    }
}

/// The clock goes on.
pub(crate) fn tick_each(parts: &mut Vec<Part>, to: u64)
    ensures { parts.new.items ≡ parts_at_moment to parts.old.items }
{
    for part in parts.iter_mut() {
        part.tick(to);
    }
}
