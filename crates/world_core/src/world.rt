//! The world and where its parts are.

ghost use Rattle.std.specs.Prelude.{◌≡◌, length, position};
ghost use Rattle.std.specs.Option.{option_copied};
ghost use Rattle.ignite_types.specs.Names.{same_node};
ghost use Rattle.tx_model.specs.World.{Part as PartValue, inbox_on, live_place, live_session_place, node_at, part_on, place_of, session_node_at};

use crate::parts::{Part, is_alive};
use discovery_order::Directory;
use ignite_types::{End, Group, Journal, List, NodeId, Scenario};
use link_memory::Inbox;
use node_core::Node;
use ordered_table::Table;
use std::alloc::Global;
use std::marker::Model;

/// A run in work, which contracts see as its scenario, the world as it is now, and the groups so far.
#[derive(Debug, Drop)]
pub struct World {
    pub(crate) alloc: Global,
    pub(crate) scenario: Scenario,
    pub(crate) directory: Directory,
    pub(crate) parts: Vec<Part>,
    pub(crate) inboxes: Vec<Inbox>,
    pub(crate) session_nodes: Table<u32, NodeId>,
    pub(crate) broken: bool,
    pub(crate) groups: List<Group>,
}

impl Model for World {
    ghost use Rattle.world_core.specs.Run.{Run};

    ghost Value = { Run };

    ghost view = { λ w. record {
      scenario = w.scenario;
      now = record { directory = w.directory; parts = w.parts.items; inboxes = w.inboxes.items; session_nodes = w.session_nodes; broken = w.broken };
      past = w.groups;
    } };
}

/// The place of the node with this number.
fn place_of(parts: &[Part], id: NodeId) -> Option<usize>
    ensures { result ≡ position (λ (p : PartValue). same_node p.node.me id) parts.now }
{
    parts.iter().position(|part| part.node.me() == id)
}

impl World {
    /// The place of the node with this number.
    pub(crate) fn place_of(&self, id: NodeId) -> Option<usize>
        ensures { result ≡ place_of self.now.now id }
    {
        place_of(self.parts.as_slice(), id)
    }

    /// The node at this place.
    pub(crate) fn part_on(&self, place: Option<usize>) -> Option<&Part>
        ensures { option_copied result ≡ part_on self.now.now place }
    {
        match place {
            Some(place) => self.parts.get(place),
            None => None,
        }
    }

    /// The inbox at this place.
    pub(crate) fn inbox_on(&self, place: Option<usize>) -> Option<&Inbox>
        ensures { option_copied result ≡ inbox_on self.now.now place }
    {
        match place {
            Some(place) => self.inboxes.get(place),
            None => None,
        }
    }

    /// The place of the node with this number, where it is alive.
    pub(crate) fn live_place(&self, id: NodeId) -> Option<usize>
        ensures { result ≡ live_place self.now.now id }
    {
        let place = self.place_of(id);
        match self.part_on(place) {
            Some(part) => { if is_alive(part.life) { place } else { None } }
            None => None,
        }
    }

    /// The place of the session's node, where it is alive.
    pub(crate) fn live_home(&self, session: u32) -> Option<usize>
        ensures { result ≡ live_session_place self.now.now session }
    {
        match self.session_nodes.get(&session) {
            Some(id) => self.live_place(*id),
            None => None,
        }
    }

    /// The node with this number, where it is alive.
    pub fn node_at(&self, id: NodeId) -> Option<&Node>
        ensures { option_copied result ≡ node_at self.now.now id }
    {
        match self.part_on(self.live_place(id)) {
            Some(part) => Some(&part.node),
            None => None,
        }
    }

    /// The session's node, where it is alive.
    pub(crate) fn home_at(&self, session: u32) -> Option<&Node>
        ensures { option_copied result ≡ session_node_at self.now.now session }
    {
        match self.part_on(self.live_home(session)) {
            Some(part) => Some(&part.node),
            None => None,
        }
    }

    /// How many events there were.
    pub fn events(&self) -> usize
        ensures { result ≡ length self.now.past }
    {
        self.groups.len()
    }

    /// The journal so far, with its end.
    pub fn into_journal(self, end: End) -> Journal
        ensures { result ≡ record { scenario = self.scenario; groups = self.past; end = end } }
    {
        let World {
            alloc: _,
            scenario,
            directory: _,
            parts: _,
            inboxes: _,
            session_nodes: _,
            broken: _,
            groups,
        } = self;
        Journal {
            scenario,
            groups,
            end,
        }
    }
}
