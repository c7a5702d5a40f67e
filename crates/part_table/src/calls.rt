//! The calls of the table.
ghost use Rattle.std.specs.Prelude.{◌≡◌, ◌<◌, ◌≤◌, [], map, length, All, IfOk, IfErr};
ghost use Rattle.part_table.specs.History.{IsLegal, ascends, replay};
ghost use Rattle.part_table.specs.Rule.{numbers_from};
ghost use Rattle.part_table.specs.Surface.{EachOnce, Ends, IsPassOf, machine_of, passes_of, plan_of_table, rules_of};
ghost use Rattle.part_table.specs.Turns.{IsLater, Joined};
ghost use Rattle.part_table.specs.declared.holders.TakeFault.TheVariants as fault;

use crate::holders::{Full, Pass, TakeFault, Turn};
use crate::machine::Machine;
use crate::rows::{drop_rest, lay_slots, take_events, take_lists, take_states};
use crate::rule::{Plan, See};
use crate::table::Parts;
use atomic_table::Table;
use ignite_types::{Mem, NoMemory};
use std::alloc::Global;
use std::sync::Wait;

impl<M: Machine> Parts<M> {
    /// A table whose parts have these values, with a journal of `limit` places, and its passes, numbered from 0.
    pub fn make(
        alloc: Global,
        machine: M,
        opening: Vec<M::State>,
        limit: u64,
        passes: u32,
    ) -> Mem<(Parts<M>, Vec<Pass<M>>)>
        requires opening { opening.items ≡ map (M.opening machine) (numbers_from 0 (M.count machine)) }
        requires passes { 0 < passes }
        ensures table { IfOk result (λ t. (t.0.count ≡ M.count machine) × (t.0.limit ≡ limit)
            × (t.0.table.shared.key ≡ plan_of_table machine (M.count machine) limit passes)) }
        ensures numbers { IfOk result (λ t. map (λ p. p.number) t.1.items ≡ numbers_from 0 passes) }
        ensures own { IfOk result (λ t. All (λ p. IsPassOf t.0 p × (p.seen ≡ [])) t.1.items) }
    {
        let count = opening.len();
        // no memory has room for more slots than a number of the machine can count
        let Some(slots) = limit.checked_add(count as u64) else {
            return Err(NoMemory);
        };
        let Some(_) = slots.checked_add(passes as u64) else {
            return Err(NoMemory);
        };
        let states = Vec::with_capacity(alloc, count)?;
        let events = Vec::with_capacity(alloc, limit as usize)?;
        let list = Vec::with_capacity(alloc, passes as usize)?;
        let words = vec![in alloc; 0; count + 1]?;
        let slots = lay_slots(alloc, opening, limit as usize, states, events)?;
        let plan = Plan {
            machine,
            parts: count,
            limit,
            passes: passes as u64,
        };
        let Ok((table, seat)) = Table::new(alloc, &words, slots, &plan) else {
            return Err(NoMemory);
        };
        let parts = Parts {
            table,
            count,
            limit,
            alloc,
        };
        let list = parts.deal(seat, passes, list);
        Ok((parts, list))
    }

    /// Takes the parts, one after another in the order of their numbers, and waits for each that is out. The values are the
    /// replay of the history that the turn's pass has seen, which begins with what the pass had seen before. Want of memory
    /// is met before any part is taken.
    pub fn take<R: Wait>(&self, rt: &R, pass: Pass<M>, ids: &[u32]) -> Result<Turn<M>, TakeFault<M>>
        requires own { IsPassOf self.now pass }
        requires ids { ascends 0 ids.now × All (λ i. i < self.now.count) ids.now }
        ensures own { IfOk result (λ t. IsPassOf self.now t.pass × (t.pass.number ≡ pass.number) × (t.ids ≡ ids.now)) }
        ensures none { IfErr result (λ f. f ≡ fault.NoMemory pass) }
        ensures seen { IfOk result (λ t. IsLater pass.number pass.seen t.pass.seen) }
        ensures legal { IfOk result (λ t. IsLegal (rules_of self.now M.opening M.touches M.relates) t.pass.seen) }
        ensures values { IfOk result (λ t. t.states
            ≡ map (replay (rules_of self.now M.opening M.touches M.relates) t.pass.seen) ids.now) }
    {
        let Ok(mut own_ids) = Vec::with_capacity(self.alloc, ids.len()) else {
            return Err(TakeFault::NoMemory(pass));
        };
        let Ok(mut states) = Vec::with_capacity(self.alloc, ids.len()) else {
            return Err(TakeFault::NoMemory(pass));
        };
        let Pass { mut seat, number } = pass;
        for i in 0..ids.len() {
            let state = self.take_part(rt, &mut seat, ids[i]);
            own_ids.push_reserved(ids[i]);
            states.push_reserved(state);
        }
        self.table.shared.load::<See<M>>(&mut seat, 0);
        Ok(Turn {
            seat,
            number,
            ids: own_ids,
            states,
        })
    }

    /// Adds the event to the history and the journal, and brings the new values home. Where the journal has `limit` entries all
    /// comes back as it was. It takes no memory, and does not wait.
    pub fn commit(
        &self,
        turn: Turn<M>,
        event: M::Event,
        news: Vec<M::State>,
    ) -> Result<Pass<M>, Full<M>>
        requires own { IsPassOf self.now turn.pass }
        requires touches { turn.ids ≡ M.touches (machine_of self.now) event }
        requires relates { (length news.items ≡ length turn.ids) × M.relates (machine_of self.now) event turn.states news.items }
        ensures own { IfOk result (λ p. IsPassOf self.now p × (p.number ≡ turn.pass.number)) }
        ensures joined { IfOk result (λ p. Joined (rules_of self.now M.opening M.touches M.relates)
            turn.pass.number event news.items turn.pass.seen p.seen × (length p.seen ≤ self.now.limit)) }
        ensures same { IfErr result (λ f. IsPassOf self.now f.turn.pass × (f.turn.pass.number ≡ turn.pass.number)
            × (f.turn.ids ≡ turn.ids) × (f.turn.states ≡ turn.states) × (f.event ≡ event) × (f.news ≡ news)) }
        ensures full { IfErr result (λ f. IsLater turn.pass.number turn.pass.seen f.turn.pass.seen
            × (length f.turn.pass.seen ≡ self.now.limit)) }
    {
        let Turn {
            mut seat,
            number,
            ids,
            states,
        } = turn;
        let (found, event, news) = self.look_step(&mut seat, event, news);
        if found >= self.limit {
            let turn = Turn {
                seat,
                number,
                ids,
                states,
            };
            return Err(Full { turn, event, news });
        }
        let place = self.commit_step(&mut seat);
        if place >= self.limit {
            let turn = Turn {
                seat,
                number,
                ids,
                states,
            };
            return Err(Full { turn, event, news });
        }
        self.place_step(&mut seat, place, event);
        self.bring_home(&mut seat, &ids, news);
        Ok(Pass { seat, number })
    }

    /// Brings the parts home as they were. The pass comes back as it was, too. It takes no memory, and does not wait.
    pub fn give_back(&self, turn: Turn<M>) -> Pass<M>
        requires own { IsPassOf self.now turn.pass }
        ensures back { result ≡ turn.pass }
    {
        let Turn {
            mut seat,
            number,
            ids,
            states,
        } = turn;
        self.bring_home(&mut seat, &ids, states);
        Pass { seat, number }
    }

    /// Each part's value, and the journal: the events of the history in its order. All passes come back, in any order. It
    /// takes no memory, and does not wait.
    pub fn close(self, mut passes: Vec<Pass<M>>) -> (Vec<M::State>, Vec<M::Event>)
        requires own { All (λ p. p.table ≡ self.table.shared.table_id) passes.items }
        requires each { EachOnce (passes_of self) passes.items }
        ensures history { (log : _)
            × Ends (rules_of self M.opening M.touches M.relates) self.count (passes_of self) passes.items log
            result.0.items result.1.items }
    {
        let Some(first) = passes.pop() else {
            unreachable!()
        };
        let seat = self.gather(first, passes);
        let Parts {
            table,
            count,
            limit,
            alloc: _,
        } = self;
        let mut closed = table.close_with(seat);
        let found = closed.word(0);
        let entries = if found < limit { found } else { limit };
        let (states, events) = take_lists(&mut closed, count + limit as usize);
        let states = take_states(&mut closed, count, states);
        let events = take_events(&mut closed, count, entries as usize, events);
        drop_rest(closed, count + entries as usize);
        (states, events)
    }
}
