//! What the table's slots have, what each seat knows, the rule, and what each kind of step tells.
ghost use Rattle.std.specs.Prelude.{◌≡◌, ℕ, List, Some};

use crate::machine::Machine;
use atomic_table::{Join, Play, Split, TableRule};
use std::collections::LinkedList;
use std::marker::PhantomData;

/// One entry of the history: an event, the new values of the parts that it touches, and the number of the pass that committed it.
/// No value of it is made: it is what proofs speak of.
pub struct Entry<S, E> {
    pub event: E,
    pub news: LinkedList<S>,
    pub by: u32,
}

/// What lies in a slot: a part's value, the event at a place of the journal, an event that is announced with its new values,
/// or the two empty lists that closing fills.
#[derive(Drop)]
pub enum Slot<S, E> {
    Part(S),
    Place(E),
    Ask(E, Vec<S>),
    Lists(Vec<S>, Vec<E>),
    Empty,
}

/// What a seat knows: its table, the numbers of the passes that it stands for, how many steps past the limit they may still
/// make, the history that it has seen and what it was told of each pass by a join, the parts that it holds, and how far its
/// commit has come. No value of it is made.
pub struct View<M, S, E> {
    pub machine: Option<M>,
    pub parts: usize,
    pub limit: u64,
    pub numbers: LinkedList<u32>,
    pub room: u64,
    pub seen: LinkedList<Entry<S, E>>,
    pub told: LinkedList<(u32, LinkedList<Entry<S, E>>)>,
    pub held: LinkedList<(u64, S)>,
    pub place: Option<u64>,
    pub said: Option<(E, LinkedList<S>)>,
    pub ready: bool,
}

/// What the rule reads: the machine, and the counts of parts, of the journal's places and of passes.
#[derive(Drop)]
pub struct Plan<M> {
    pub machine: M,
    pub parts: usize,
    pub limit: u64,
    pub passes: u64,
}

/// The rule of the table.
pub struct Law<M> {
    machine: PhantomData<M>,
}

impl<M: Machine> TableRule<Slot<M::State, M::Event>, View<M, M::State, M::Event>, Plan<M>>
    for Law<M> {
    ghost use Rattle.part_table.specs.History.{Rules, rules};
    ghost use Rattle.part_table.specs.Rule.{Kept, first_view};

    ghost holds = { λ key. Kept
        (rules key.parts (M.opening key.machine) (M.touches key.machine) (M.relates key.machine))
        key.limit key.passes key.machine };

    ghost first = { λ key. first_view key.machine key.parts key.limit key.passes };
}

/// A step that takes a part.
pub struct Take;

impl<M, S, E> Play<Slot<S, E>, View<M, S, E>> for Take {
    ghost use Rattle.part_table.specs.Rule.{Takes};

    ghost then = { Takes };
}

/// A step that gives a part back.
pub struct Give;

impl<M, S, E> Play<Slot<S, E>, View<M, S, E>> for Give {
    ghost use Rattle.part_table.specs.Rule.{Gives};

    ghost then = { Gives };
}

/// A step that adds an event to the history.
pub struct Commit<M> {
    machine: PhantomData<M>,
}

impl<M: Machine> Play<Slot<M::State, M::Event>, View<M, M::State, M::Event>> for Commit<M> {
    ghost use Rattle.part_table.specs.History.{rules};
    ghost use Rattle.part_table.specs.Rule.{Commits};

    ghost then = { λ s m found n. (mc : M) → m.0.machine ≡ Some mc
        → Commits (rules m.0.parts (M.opening mc) (M.touches mc) (M.relates mc)) s m found n };
}

/// A step that sees the history so far.
pub struct See<M> {
    machine: PhantomData<M>,
}

impl<M: Machine> Play<Slot<M::State, M::Event>, View<M, M::State, M::Event>> for See<M> {
    ghost use Rattle.part_table.specs.History.{rules};
    ghost use Rattle.part_table.specs.Rule.{Sees};

    ghost then = { λ s m found n. (mc : M) → m.0.machine ≡ Some mc
        → Sees (rules m.0.parts (M.opening mc) (M.touches mc) (M.relates mc)) s m found n };
}

/// A step that announces an event, and looks whether it may follow.
pub struct Look;

impl<M, S, E> Play<Slot<S, E>, View<M, S, E>> for Look {
    ghost use Rattle.part_table.specs.Rule.{Looks};

    ghost then = { Looks };
}

/// A step that brings the event to its place.
pub struct Write;

impl<M, S, E> Play<Slot<S, E>, View<M, S, E>> for Write {
    ghost use Rattle.part_table.specs.Rule.{Places};

    ghost then = { Places };
}

/// Two seats become one.
pub struct Merge;

impl<M, S, E> Join<View<M, S, E>> for Merge {
    ghost use Rattle.part_table.specs.Rule as rule;

    ghost both = { rule.both };

    ghost spent = { rule.spent };
}

/// A seat gets the first number of another.
pub struct Cut;

impl<M, S, E> Split<View<M, S, E>> for Cut {
    ghost use Rattle.part_table.specs.Rule.{head_view, tail_view};

    ghost left = { tail_view };

    ghost right = { head_view };
}
