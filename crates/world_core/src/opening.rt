//! The world in which a run begins.

ghost use Rattle.std.specs.Prelude.{◌≡◌, [], IfOk};
ghost use Rattle.tx_model.specs.Opening.{declared_nodes, ids_of, opening_inboxes, opening_part, opening_parts, session_nodes_from};
ghost use Rattle.world_core.specs.Run.{run_begun};

use crate::parts::Part;
use crate::world::World;
use discovery_order::{Directory, node_set};
use ignite_types::{List, Mem, Member, NodeId, PartMap, Scenario, Session, Step};
use link_memory::Inbox;
use node_core::{new_node, opening_map_of};
use node_state::Life;
use node_steps::is_member;
use ordered_set::Set;
use ordered_table::Table;
use plain_copies::Duplicate;
use std::alloc::Global;

/// The declared nodes: those of node lines, then those of join steps.
fn declared_nodes(alloc: Global, scenario: &Scenario) -> Mem<List<Member>>
    ensures { IfOk result (λ members. members ≡ declared_nodes scenario.now) }
{
    let mut members = List::from_slice(alloc, scenario.nodes.as_slice())?;
    for step in scenario.plan.as_slice() {
        match step.step {
            Step::Join(member) => members.push(member)?,
            _ => {}
        }
    }
    Ok(members)
}

/// The numbers of the declared nodes, ascending.
fn ids_of(alloc: Global, scenario: &Scenario) -> Mem<Set<NodeId>>
    ensures { IfOk result (λ ids. ids ≡ ids_of scenario.now) }
{
    let members = declared_nodes(alloc, scenario)?;
    node_set(alloc, members.as_slice())
}

fn part_of(alloc: Global, scenario: &Scenario, map: &PartMap, id: NodeId) -> Mem<Part>
    ensures { IfOk result (λ part. part ≡ opening_part scenario.now map.now id) }
{
    let initial = is_member(scenario.nodes.as_slice(), id);
    let node = new_node(alloc, scenario, map, id, initial)?;
    let life = if initial { Life::Alive } else { Life::Absent };
    Ok(Part { node, life })
}

fn parts_of(alloc: Global, scenario: &Scenario, map: &PartMap, ids: &[NodeId]) -> Mem<Vec<Part>>
    ensures { IfOk result (λ parts. parts.items ≡ opening_parts scenario.now map.now ids.now) }
{
    let mut parts = Vec::new(alloc);
    for id in ids {
        parts.push(part_of(alloc, scenario, map, *id)?)?;
    }
    Ok(parts)
}

fn inboxes_of(alloc: Global, senders: &[NodeId], ids: &[NodeId]) -> Mem<Vec<Inbox>>
    ensures { IfOk result (λ inboxes. inboxes.items ≡ opening_inboxes senders.now ids.now) }
{
    let mut inboxes = Vec::new(alloc);
    for _id in ids {
        inboxes.push(Inbox::new(alloc, senders)?)?;
    }
    Ok(inboxes)
}

/// The node of each session, by the sessions' numbers from 1.
fn session_nodes_of(alloc: Global, sessions: &[Session]) -> Mem<Table<u32, NodeId>>
    ensures { IfOk result (λ session_nodes. session_nodes ≡ session_nodes_from 1 [] sessions.now) }
{
    let mut session_nodes = Table::new(alloc);
    let mut number = 1u32;
    for session in sessions {
        session_nodes.set(number, session.node)?;
        number = number.saturating_add(1);
    }
    Ok(session_nodes)
}

impl World {
    /// The opening world of a scenario.
    pub fn new(alloc: Global, scenario: &Scenario) -> Mem<World>
        ensures { IfOk result (λ world. world ≡ run_begun scenario.now) }
    {
        let ids = ids_of(alloc, scenario)?;
        let map = opening_map_of(alloc, scenario)?;
        Ok(World {
            alloc,
            scenario: scenario.copy(alloc)?,
            directory: Directory::new(alloc, scenario)?,
            parts: parts_of(alloc, scenario, &map, ids.as_slice())?,
            inboxes: inboxes_of(alloc, ids.as_slice(), ids.as_slice())?,
            session_nodes: session_nodes_of(alloc, scenario.sessions.as_slice())?,
            broken: false,
            groups: List::new(alloc),
        })
    }
}
