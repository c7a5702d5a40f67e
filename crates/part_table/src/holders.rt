//! The right to take parts, and parts that are taken.
ghost use Rattle.std.specs.Prelude.{◌≡◌};

use crate::machine::Machine;
use crate::rule::{Slot, View};
use atomic_table::Seat;
use std::marker::Model;

/// The right to take parts. Contracts see its table, its number, and the history that it has seen.
#[derive(Drop)]
pub struct Pass<M: Machine> {
    pub(crate) seat: Seat<Slot<M::State, M::Event>, View<M, M::State, M::Event>>,
    pub(crate) number: u32,
}

impl<M: Machine> Model for Pass<M> {
    ghost use Rattle.part_table.specs.Turns.{IsResting};
    ghost use Rattle.part_table.specs.Surface.{PassView, pass_view};

    ghost Value = { PassView M M.State M.Event };

    ghost view = { λ p. pass_view p.seat.table_id p.seat.me.0 p.number };

    ghost invariant = { λ p. IsResting p.number p.seat.me };
}

/// A pass with parts that are taken. Contracts see the pass, the parts' numbers and their values.
#[derive(Drop)]
pub struct Turn<M: Machine> {
    pub(crate) seat: Seat<Slot<M::State, M::Event>, View<M, M::State, M::Event>>,
    pub(crate) number: u32,
    pub(crate) ids: Vec<u32>,
    pub(crate) states: Vec<M::State>,
}

impl<M: Machine> Model for Turn<M> {
    ghost use Rattle.part_table.specs.Surface.{IsTurn, TurnView, pass_view};

    ghost Value = { TurnView M M.State M.Event };

    ghost view = { λ t. record {
      pass = pass_view t.seat.table_id t.seat.me.0 t.number;
      ids = t.ids.items;
      states = t.states.items;
    } };

    ghost invariant = { λ t. IsTurn t.number t.ids.items t.states.items t.seat.table_id.words t.seat.me };
}

impl<M: Machine> Turn<M> {
    /// The values of the parts that are taken, in the order of their numbers.
    pub fn states(&self) -> &[M::State]
        ensures { result.now ≡ self.now.states }
    {
        &self.states
    }
}

/// Why no part was taken: there was no memory. The pass comes back.
#[derive(Drop)]
pub enum TakeFault<M: Machine> {
    NoMemory(Pass<M>),
}

/// The journal has no place left. What the call was given comes back.
#[derive(Drop)]
pub struct Full<M: Machine> {
    pub turn: Turn<M>,
    pub event: M::Event,
    pub news: Vec<M::State>,
}
