//! The atomic steps of the table, each with the slots that it moves.
ghost use Rattle.std.specs.Prelude.{◌≡◌, ◌≢◌, ℕ, ◌+◌, ◌<◌, ◌≤◌, ◌++◌, [], ◌∷◌, map, length, All, None, Some, MatchBool, ltb};
ghost use mathlib.Core.Option.{none};
ghost use mathlib.Core.List.{IsPrefix};
ghost use Rattle.atomic_table.specs.Table.{step};
ghost use Rattle.part_table.specs.History.{ascends, held_at, held_pairs};
ghost use Rattle.part_table.specs.Rule.{Commits, Quiet, Recalls, first_view, holding, looked, numbers_from, placed, rest_of, saw, without_first_held};
ghost use Rattle.part_table.specs.Surface.{IsPassOf, machine_of, rules_of};
ghost use Rattle.part_table.specs.Turns.{IsOf, IsSameSeat, Ready, emptied};
ghost use Rattle.part_table.specs.declared.rule.Slot.TheVariants.{Empty, Part};

use crate::holders::Pass;
use crate::machine::Machine;
use crate::rule::{Commit, Cut, Give, Look, Merge, Slot, Take, View, Write};
use crate::table::Parts;
use atomic_table::Seat;
use std::sync::Wait;

impl<M: Machine> Parts<M> {
    // Waits until the part is at home, and takes it.
    pub(crate) fn take_part<R: Wait>(
        &self,
        rt: &R,
        seat: &mut Seat<Slot<M::State, M::Event>, View<M, M::State, M::Event>>,
        part: u32,
    ) -> M::State
        requires own { seat.old.table_id ≡ self.now.table.shared.table_id }
        requires part { part < self.now.count }
        requires active { seat.old.me.0.numbers ≢ [] }
        ensures own { IsSameSeat seat.old seat.new }
        ensures took { seat.new.me ≡ (holding seat.old.me.0 part result, seat.old.me.1 ++ (part, Empty) ∷ []) }
    {
        let word = part as usize + 1;
        for _ in rt.forever() {
            if self.table.shared.compare_exchange::<Take>(seat, word, 0, 1) == 0 {
                let found = self.table.shared.exchange(seat, part as usize, Slot::Empty);
                seat.turn();
                return match found {
                    Slot::Part(value) => value,
                    Slot::Place(_) | Slot::Ask(_, _) | Slot::Lists(_, _) | Slot::Empty =>
                        unreachable!(),
                };
            }
            self.table.shared.park(rt, word, 1);
        }
        unreachable!()
    }

    // Brings the part that is held first home: its value lies in its slot already.
    fn give_part(
        &self,
        seat: &mut Seat<Slot<M::State, M::Event>, View<M, M::State, M::Event>>,
        part: u32,
    )
        requires own { seat.old.table_id ≡ self.now.table.shared.table_id }
        requires part { part + 1 < self.now.table.shared.table_id.words }
        requires held { (x : _) × (hs : _) × (cs : _) × (seat.old.me.0.held ≡ (part, x) ∷ hs) × (held_at part hs ≡ None)
            × (seat.old.me.1 ≡ (part, Part x) ∷ cs) }
        ensures own { IsSameSeat seat.old seat.new }
        ensures gave { seat.new.me ≡ (without_first_held seat.old.me.0 (rest_of seat.old.me.0.held), rest_of seat.old.me.1) }
    {
        let word = part as usize + 1;
        self.table.shared.store::<Give>(seat, word, 0);
        self.table.shared.wake_one(word);
    }

    // Adds the event that was announced to the history, or finds the journal full.
    pub(crate) fn commit_step(
        &self,
        seat: &mut Seat<Slot<M::State, M::Event>, View<M, M::State, M::Event>>,
    ) -> u64
        requires own { seat.old.table_id ≡ self.now.table.shared.table_id }
        requires mine { IsOf self.now.table.shared.key seat.old.me.0 }
        requires ready { (number : ℕ) × (e : _) × (ids : _) × (olds : _) × (news : _)
            × Ready (rules_of self.now M.opening M.touches M.relates) number e ids olds news seat.old.me }
        ensures own { IsSameSeat seat.old seat.new }
        ensures told { Commits (rules_of self.now M.opening M.touches M.relates)
            (step self.now.table.shared.table_id.slots 0 1 0 none) seat.old.me result seat.new.me }
    {
        self.table.shared.fetch_add::<Commit<M>>(seat, 0, 1)
    }

    // Announces the event with its new values, and looks whether it may follow.
    pub(crate) fn look_step(
        &self,
        seat: &mut Seat<Slot<M::State, M::Event>, View<M, M::State, M::Event>>,
        event: M::Event,
        news: Vec<M::State>,
    ) -> (u64, M::Event, Vec<M::State>)
        requires own { seat.old.table_id ≡ self.now.table.shared.table_id }
        requires mine { IsOf self.now.table.shared.key seat.old.me.0 }
        requires free { (seat.old.me.0.numbers ≢ []) × (seat.old.me.0.place ≡ None) }
        ensures own { IsSameSeat seat.old seat.new }
        ensures same { (result.1 ≡ event) × (result.2 ≡ news) }
        ensures told { (w : _) × IsPrefix seat.old.me.0.seen w × Quiet seat.old.me.0 w
            × MatchBool (ltb result.0 seat.old.me.0.limit)
            (seat.new.me ≡ (looked seat.old.me.0 w (event, news.items), seat.old.me.1))
            ((seat.new.me ≡ (saw seat.old.me.0 w, seat.old.me.1)) × (length w ≡ seat.old.me.0.limit)) }
    {
        let asked = Slot::Ask(event, news);
        let found = self
            .table
            .shared
            .compare_exchange_with::<Look>(seat, 0, 0, 0, &asked);
        match asked {
            Slot::Ask(event, news) => (found, event, news),
            Slot::Part(_state) => unreachable!(),
            Slot::Place(_event) => unreachable!(),
            Slot::Lists(_states, _events) => unreachable!(),
            Slot::Empty => unreachable!(),
        }
    }

    // Writes the event into the journal's place that the step took.
    pub(crate) fn place_step(
        &self,
        seat: &mut Seat<Slot<M::State, M::Event>, View<M, M::State, M::Event>>,
        place: u64,
        event: M::Event,
    )
        requires own { seat.old.table_id ≡ self.now.table.shared.table_id }
        requires place { (place < self.now.limit) × (seat.old.me.0.place ≡ Some place)
            × ((xs : _) × (seat.old.me.0.said ≡ Some (event, xs)))
            × ((cs : _) × (seat.old.me.1 ≡ (self.now.count + place, Empty) ∷ cs)) }
        ensures own { IsSameSeat seat.old seat.new }
        ensures done { seat.new.me ≡ (placed seat.old.me.0, rest_of seat.old.me.1) }
    {
        let slot = self.count + place as usize;
        let shared = &self.table.shared;
        match shared.exchange(seat, slot, Slot::Place(event)) {
            Slot::Empty => {}
            Slot::Part(_) | Slot::Place(_) | Slot::Ask(_, _) | Slot::Lists(_, _) => unreachable!(),
        }
        shared.load::<Write>(seat, 0);
    }

    // Brings all parts home, with these values, in their order.
    pub(crate) fn bring_home(
        &self,
        seat: &mut Seat<Slot<M::State, M::Event>, View<M, M::State, M::Event>>,
        ids: &[u32],
        values: Vec<M::State>,
    )
        requires own { seat.old.table_id ≡ self.now.table.shared.table_id }
        requires ids { ascends 0 ids.now × All (λ i. i + 1 < self.now.table.shared.table_id.words) ids.now
            × (length ids.now ≡ length values.items) }
        requires held { (seat.old.me.0.held ≡ held_pairs ids.now values.items) × (seat.old.me.1 ≡ emptied ids.now) }
        ensures own { IsSameSeat seat.old seat.new }
        ensures done { seat.new.me ≡ (without_first_held seat.old.me.0 [], []) }
    {
        let mut i = 0;
        for value in values {
            let shared = &self.table.shared;
            match shared.exchange(seat, ids[i] as usize, Slot::Part(value)) {
                Slot::Empty => {}
                Slot::Part(_) | Slot::Place(_) | Slot::Ask(_, _) | Slot::Lists(_, _) =>
                    unreachable!(),
            }
            self.give_part(seat, ids[i]);
            i += 1;
        }
    }

    // Cuts the first seat into one for each pass, in the order of their numbers.
    pub(crate) fn deal(
        &self,
        mut seat: Seat<Slot<M::State, M::Event>, View<M, M::State, M::Event>>,
        passes: u32,
        mut list: Vec<Pass<M>>,
    ) -> Vec<Pass<M>>
        requires own { seat.table_id ≡ self.now.table.shared.table_id }
        requires first { (0 < passes)
            × (seat.me
            ≡ (first_view (machine_of self.now) self.now.table.shared.key.parts self.now.table.shared.key.limit passes, [])) }
        requires room { (list.items ≡ []) × (passes ≤ list.cap) }
        ensures numbers { map (λ p. p.number) result.items ≡ numbers_from 0 passes }
        ensures own { All (λ p. IsPassOf self.now p × (p.seen ≡ [])) result.items }
    {
        for number in 0..passes - 1 {
            let right = self.table.shared.split_seat::<Cut>(&mut seat);
            list.push_reserved(Pass {
                seat: right,
                number,
            });
        }
        list.push_reserved(Pass {
            seat,
            number: passes - 1,
        });
        list
    }

    // Joins the seats of all passes into one.
    pub(crate) fn gather(
        &self,
        first: Pass<M>,
        others: Vec<Pass<M>>,
    ) -> Seat<Slot<M::State, M::Event>, View<M, M::State, M::Event>>
        requires first { first.table ≡ self.now.table.shared.table_id }
        requires others { All (λ p. p.table ≡ self.now.table.shared.table_id) others.items }
        ensures own { result.table_id ≡ self.now.table.shared.table_id }
        ensures idle { (length result.me.0.numbers ≡ length others.items + 1) × (result.me.0.held ≡ [])
            × (result.me.0.place ≡ None) }
        ensures first { Recalls result.me.0 first.number first.seen }
        ensures others { All (λ p. Recalls result.me.0 p.number p.seen) others.items }
    {
        let Pass {
            mut seat,
            number: _,
        } = first;
        for pass in others {
            let Pass {
                seat: other,
                number: _,
            } = pass;
            self.table.shared.join_seat::<Merge>(&mut seat, other);
        }
        seat
    }
}
