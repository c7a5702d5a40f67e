//! The row of slots, as it is laid and as its values are taken out again.
ghost use Rattle.std.specs.Prelude.{◌≡◌, ℕ, ◌+◌, ◌^◌, ◌<◌, ◌≤◌, ◌++◌, ◌∷◌, [], map, length, take, drop, replicate, IfOk};
ghost use mathlib.Core.Option.{some};
ghost use lib.ListN.{get_elem?};
ghost use Rattle.std.specs.Slots.{slots_items, slots_len};
ghost use Rattle.part_table.specs.Rows.{IsLeft, IsSameRow, IsWhole};
ghost use Rattle.part_table.specs.declared.rule.Slot.TheVariants.{Part, Place, Lists, Empty};

use crate::rule::Slot;
use atomic_table::Closed;
use std::alloc::{AllocError, Global};

// The values in their slots, then so many empty places, and last the two lists.
pub(crate) fn lay_slots<S: Drop, E: Drop>(
    alloc: Global,
    values: Vec<S>,
    places: usize,
    states: Vec<S>,
    events: Vec<E>,
) -> Result<Vec<Slot<S, E>>, AllocError>
    requires { length values.items + places + 1 < 2 ^ 64 }
    ensures { IfOk result (λ v. v.items ≡ (map Part values.items ++ replicate places Empty) ++ Lists states events ∷ []) }
{
    let mut slots = Vec::with_capacity(alloc, values.len() + places + 1)?;
    for value in values {
        slots.push_reserved(Slot::Part(value));
    }
    for _ in 0..places {
        slots.push_reserved(Slot::Empty);
    }
    slots.push_reserved(Slot::Lists(states, events));
    Ok(slots)
}

// The last slot has the two lists.
pub(crate) fn take_lists<S: Drop, E: Drop>(
    closed: &mut Closed<Slot<S, E>, Global>,
    last: usize,
) -> (Vec<S>, Vec<E>)
    requires whole { IsWhole closed.old }
    requires last { slots_len closed.old.slots ≡ last + 1 }
    requires lists { (xs : _) × (es : _) × (get_elem? (slots_items closed.old.slots) last ≡ some (Lists xs es)) }
    ensures same { IsSameRow closed.old closed.new }
    ensures left { IsLeft closed.new 0 }
    ensures lists { get_elem? (slots_items closed.old.slots) last ≡ some (Lists result.0 result.1) }
{
    match closed.take(last) {
        Slot::Lists(states, events) => (states, events),
        Slot::Part(_) | Slot::Place(_) | Slot::Ask(_, _) | Slot::Empty => unreachable!(),
    }
}

// The first slots have the parts.
pub(crate) fn take_states<S: Drop, E: Drop>(
    closed: &mut Closed<Slot<S, E>, Global>,
    count: usize,
    mut states: Vec<S>,
) -> Vec<S>
    requires left { IsLeft closed.old 0 }
    requires room { (states.items ≡ []) × (count ≤ states.cap) × (count + 1 ≤ slots_len closed.old.slots) }
    requires parts { (k : ℕ) → k < count → (x : S) × (get_elem? (slots_items closed.old.slots) k ≡ some (Part x)) }
    ensures same { IsSameRow closed.old closed.new }
    ensures left { IsLeft closed.new count }
    ensures states { map Part result.items ≡ take count (slots_items closed.old.slots) }
{
    for i in 0..count {
        match closed.take(i) {
            Slot::Part(value) => states.push_reserved(value),
            Slot::Place(_) | Slot::Ask(_, _) | Slot::Lists(_, _) | Slot::Empty => unreachable!(),
        }
    }
    states
}

// The next slots have the journal's events.
pub(crate) fn take_events<S: Drop, E: Drop>(
    closed: &mut Closed<Slot<S, E>, Global>,
    from: usize,
    count: usize,
    mut events: Vec<E>,
) -> Vec<E>
    requires left { IsLeft closed.old from }
    requires room { (events.items ≡ []) × (count ≤ events.cap) × (from + count + 1 ≤ slots_len closed.old.slots) }
    requires places { (j : ℕ) → j < count → (e : E) × (get_elem? (slots_items closed.old.slots) (from + j) ≡ some (Place e)) }
    ensures same { IsSameRow closed.old closed.new }
    ensures left { IsLeft closed.new (from + count) }
    ensures events { map Place result.items ≡ take count (drop from (slots_items closed.old.slots)) }
{
    for j in 0..count {
        match closed.take(from + j) {
            Slot::Place(event) => events.push_reserved(event),
            Slot::Part(_) | Slot::Ask(_, _) | Slot::Lists(_, _) | Slot::Empty => unreachable!(),
        }
    }
    events
}

// Empties the row, and frees it.
pub(crate) fn drop_rest<S: Drop, E: Drop>(mut closed: Closed<Slot<S, E>, Global>, from: usize)
    requires left { IsLeft closed from }
    requires within { from + 1 ≤ slots_len closed.slots }
{
    let last = closed.slot_count() - 1;
    for i in from..last {
        drop(closed.take(i));
    }
    closed.free();
}
