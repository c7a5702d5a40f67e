//! A declared node before its first act.

ghost use Rattle.std.specs.Prelude.{◌≡◌, [], IfOk};
ghost use Rattle.act_rows.specs.NewNodes.{empty_copies, map_if, opening_map_of, opening_node, session_states_on};
ghost use Rattle.part_model.specs.NextMap.{servers};

use discovery_order::{first_top, running_from};
use ignite_types::{List, Mem, Member, NodeId, PartMap, Row, Scenario, Session};
use node_state::SessionState;
use node_steps::{Node, NodeParts, new_session_state};
use ordered_set::Set;
use ordered_table::Table;
use part_map::opening_map;
use partition_store::Stores;
use plain_copies::Duplicate;
use std::alloc::Global;

/// The numbers of the servers among these members.
fn servers(alloc: Global, members: &[Member]) -> Mem<List<NodeId>>
    ensures { IfOk result (λ nodes. nodes ≡ servers members.now) }
{
    let mut nodes = List::new(alloc);
    for member in members {
        if member.server {
            nodes.push(member.node)?;
        }
    }
    Ok(nodes)
}

/// The map of the first version.
pub fn opening_map_of(alloc: Global, scenario: &Scenario) -> Mem<PartMap>
    ensures { IfOk result (λ map. map ≡ opening_map_of scenario.now) }
{
    let servers = servers(alloc, scenario.nodes.as_slice())?;
    let running = running_from(alloc, scenario.caches.as_slice())?;
    opening_map(
        alloc,
        first_top(),
        servers.as_slice(),
        scenario.caches.as_slice(),
        running.as_slice(),
    )
}

/// The sessions on a node, by their numbers from 1.
fn session_states_on(
    alloc: Global,
    id: NodeId,
    sessions: &[Session],
) -> Mem<Table<u32, SessionState>>
    ensures { IfOk result (λ session_states. session_states ≡ session_states_on id 1 [] sessions.now) }
{
    let mut session_states = Table::new(alloc);
    let mut number = 1u32;
    for session in sessions {
        if session.node == id {
            let script = List::from_slice(alloc, session.commands.as_slice())?;
            session_states.set(number, new_session_state(alloc, script))?;
        }
        number = number.saturating_add(1);
    }
    Ok(session_states)
}

/// An empty copy for each of these rows.
#[tactic(auto, using(crate::proofs::EmptyCopies::as_many))]
fn empty_copies(alloc: Global, rows: &[Row]) -> Mem<Stores>
    ensures { IfOk result (λ copies. copies ≡ empty_copies rows.now) }
{
    Stores::new(alloc, rows.len())
}

fn map_if(alloc: Global, initial: bool, map: &PartMap) -> Mem<Option<PartMap>>
    ensures { IfOk result (λ installed. installed ≡ map_if initial map.now) }
{
    if initial {
        Ok(Some(map.copy(alloc)?))
    } else {
        Ok(None)
    }
}

/// A declared node of the scenario before its first act. An initial one has this map installed, and version 1.0 open.
pub fn new_node(
    alloc: Global,
    scenario: &Scenario,
    map: &PartMap,
    id: NodeId,
    initial: bool,
) -> Mem<Node>
    ensures { IfOk result (λ node. node ≡ opening_node scenario.now map.now id initial) }
{
    let running = running_from(alloc, scenario.caches.as_slice())?;
    let stores = empty_copies(alloc, map.rows.as_slice())?;
    let parts = NodeParts {
        me: id,
        acts: 0,
        now: 0,
        caches: scenario.caches.copy(alloc)?,
        read: 0,
        seen: first_top(),
        members: List::from_slice(alloc, scenario.nodes.as_slice())?,
        running: Set::from_list(running),
        left: Set::new(alloc),
        installed: map_if(alloc, initial, map)?,
        opened: if initial { Some(first_top()) } else { None },
        session_states: session_states_on(alloc, id, scenario.sessions.as_slice())?,
        txs: Table::new(alloc),
        order: 0,
        shares: Table::new(alloc),
        backups: Table::new(alloc),
        single_sent: None,
        singles: List::new(alloc),
        exchange: None,
        complete: Set::new(alloc),
        claims: Set::new(alloc),
        round: None,
        reports: List::new(alloc),
        verdicts: Table::new(alloc),
        outbox: List::new(alloc),
        noted: List::new(alloc),
    };
    Ok(Node::new(alloc, stores, parts))
}
