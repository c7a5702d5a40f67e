//! A machine of two parts that hold numbers, and workers that share it.
ghost use Rattle.std.specs.Prelude.{◌≡◌, ℕ, ◌+◌, ◌<◌, ◌∷◌, [], length, sum, slice_index_or, All, IfOk, IfSome};
ghost use Rattle.part_table.specs.History.{ascends};
ghost use Rattle.part_table.specs.Surface.{IsPassOf};
ghost use Rattle.part_table.specs.Trial.{moved};

use super::*;
use ignite_types::Mem;
use std::alloc::{AllocError, Global};
use std::sync::Wait;
use std::sync::atomic::{AtomicBool, Ordering};
use std::test::*;
use std::thread;
use std::thread::{Threads, join};

// An amount moves from this part to the other, or one is added to a part.
#[derive(Drop)]
enum Errand {
    Move(u32, u64),
    AddOne(u32),
}

#[derive(Drop)]
struct Purses {}

impl Machine for Purses {
    type State = u64;

    type Event = Errand;

    ghost use Rattle.std.specs.Prelude.{◌≡◌, ◌+◌, ◌∷◌, [], map, sum};
    ghost use Rattle.part_table.specs.Trial.{moved};
    ghost use Rattle.part_table.specs.declared.tests.Errand.TheVariants.{Move, AddOne};

    ghost count = { λ _. 2 };

    ghost opening = { λ _ _. 1000 };

    ghost touches = { λ _ e. elim e [ Move _ _ ↦ 0 ∷ 1 ∷ [] | AddOne part ↦ part ∷ [] ] };

    ghost relates = { λ _ e olds news. elim e [
      | Move from amount ↦ (news ≡ moved from amount olds) × (sum news ≡ sum olds)
      | AddOne _ ↦ news ≡ map (λ x. x + 1) olds
    ] };
}

fn add_one<R: Wait>(
    rt: &R,
    alloc: Global,
    parts: &Parts<Purses>,
    pass: Pass<Purses>,
    part: u32,
) -> Pass<Purses>
    requires own { IsPassOf parts.now pass × (parts.now.count ≡ 2) }
    requires part { part < 2 }
    ensures own { IsPassOf parts.now result × (result.number ≡ pass.number) }
{
    let ids = [part];
    let turn = match parts.take(rt, pass, &ids) {
        Ok(turn) => turn,
        Err(TakeFault::NoMemory(pass)) => return pass,
    };
    let Some(more) = turn.states()[0].checked_add(1) else {
        return parts.give_back(turn);
    };
    let Ok(news) = vec![in alloc; more] else {
        return parts.give_back(turn);
    };
    match parts.commit(turn, Errand::AddOne(part), news) {
        Ok(pass) => pass,
        Err(
            Full {
                turn,
                event: _,
                news: _,
            },
        ) => parts.give_back(turn),
    }
}

// The two numbers after the move. There are none where the amount is not there, where a number would be too great, or without
// memory.
fn after_move(alloc: Global, from: u32, amount: u64, first: u64, second: u64) -> Option<Vec<u64>>
    ensures { IfSome result (λ v. (v.items ≡ moved from amount (first ∷ second ∷ []))
        × (sum v.items ≡ sum (first ∷ second ∷ []))) }
{
    if from == 0 {
        let less = first.checked_sub(amount)?;
        let more = second.checked_add(amount)?;
        return vec![in alloc; less, more].ok();
    }
    let more = first.checked_add(amount)?;
    let less = second.checked_sub(amount)?;
    vec![in alloc; more, less].ok()
}

fn move_amount<R: Wait>(
    rt: &R,
    alloc: Global,
    parts: &Parts<Purses>,
    pass: Pass<Purses>,
    from: u32,
    amount: u64,
) -> Pass<Purses>
    requires own { IsPassOf parts.now pass × (parts.now.count ≡ 2) }
    ensures own { IsPassOf parts.now result × (result.number ≡ pass.number) }
{
    let ids = [0, 1];
    let turn = match parts.take(rt, pass, &ids) {
        Ok(turn) => turn,
        Err(TakeFault::NoMemory(pass)) => return pass,
    };
    let first = turn.states()[0];
    let second = turn.states()[1];
    let Some(news) = after_move(alloc, from, amount, first, second) else {
        return parts.give_back(turn);
    };
    match parts.commit(turn, Errand::Move(from, amount), news) {
        Ok(pass) => pass,
        Err(
            Full {
                turn,
                event: _,
                news: _,
            },
        ) => parts.give_back(turn),
    }
}

// Fifty rounds of four errands, over three sets of parts.
fn work<R: Wait>(rt: &R, alloc: Global, parts: &Parts<Purses>, start: Pass<Purses>) -> Pass<Purses>
    requires own { IsPassOf parts.now start × (parts.now.count ≡ 2) }
    ensures own { IsPassOf parts.now result × (result.number ≡ start.number) }
{
    let mut pass = start;
    for _ in 0..50 {
        pass = add_one(rt, alloc, parts, pass, 0);
        pass = move_amount(rt, alloc, parts, pass, 0, 2);
        pass = add_one(rt, alloc, parts, pass, 1);
        pass = move_amount(rt, alloc, parts, pass, 1, 1);
    }
    pass
}

// A thread for each pass.
fn crowd<R: Threads + Wait + Sync>(
    rt: &R,
    alloc: Global,
    parts: &Parts<Purses>,
    passes: Vec<Pass<Purses>>,
) -> Result<Vec<Pass<Purses>>, AllocError>
    requires count { parts.now.count ≡ 2 }
    requires own { All (λ p. IsPassOf parts.now p) passes.items }
    ensures count { IfOk result (λ v. length v.items ≡ length passes.items) }
    ensures own { IfOk result (λ v. All (λ p. IsPassOf parts.now p) v.items) }
    ensures numbers { IfOk result (λ v. (i : ℕ) (d : _) → i < length passes.items
        → (slice_index_or v.items i d).number ≡ (slice_index_or passes.items i d).number) }
{
    thread::map_vec(
        rt,
        passes,
        &|pass|
            requires { IsPassOf parts.now pass × (parts.now.count ≡ 2) }
            ensures { IsPassOf parts.entry.now result × (result.number ≡ pass.number) }
        { work(rt, alloc, parts, pass) },
    )
}

// What the journal makes of the two numbers.
fn replayed(events: &[Errand]) -> (u64, u64) {
    let mut first = 1000u64;
    let mut second = 1000u64;
    for event in events {
        match event {
            Errand::Move(0, amount) => {
                first = first.wrapping_sub(*amount);
                second = second.wrapping_add(*amount);
            }
            Errand::Move(_, amount) => {
                first = first.wrapping_add(*amount);
                second = second.wrapping_sub(*amount);
            }
            Errand::AddOne(0) => first = first.wrapping_add(1),
            Errand::AddOne(_) => second = second.wrapping_add(1),
        }
    }
    (first, second)
}

#[test]
fn many_workers_share_two_parts(rt: HostRuntime) -> Result<(), Fail> {
    let alloc = rt.alloc();
    let opening = vec![in alloc; 1000, 1000]?;
    let (parts, passes) = Parts::make(alloc, Purses {}, opening, 2000, 8)?;
    let passes = crowd(&rt, alloc, &parts, passes)?;
    let (states, events) = parts.close(passes);
    let (first, second) = replayed(&events);
    assert!(rt; events.len() == 1600);
    assert!(rt; states.len() == 2 && states[0] == first && states[1] == second);
    assert!(rt; first == 1000 && second == 1800);
    Ok(())
}

#[test]
fn a_full_journal_changes_nothing(rt: HostRuntime) -> Result<(), Fail> {
    let alloc = rt.alloc();
    let opening = vec![in alloc; 1000, 1000]?;
    let (parts, mut passes) = Parts::make(alloc, Purses {}, opening, 2, 1)?;
    let Some(pass) = passes.pop() else {
        unreachable!()
    };
    let pass = add_one(&rt, alloc, &parts, pass, 0);
    let pass = move_amount(&rt, alloc, &parts, pass, 0, 1);
    let pass = move_amount(&rt, alloc, &parts, pass, 1, 5);
    let (states, events) = parts.close(vec![in alloc; pass]?);
    assert!(rt; events.len() == 2 && replayed(&events) == (1000, 1001));
    assert!(rt; states.len() == 2 && states[0] == 1000 && states[1] == 1001);
    Ok(())
}

// Keeps its parts until another thread is about to take one, and then long enough for that thread to sleep.
fn give_back_late(parts: &Parts<Purses>, turn: Turn<Purses>, asked: &AtomicBool) -> Pass<Purses>
    requires own { IsPassOf parts.now turn.pass }
    ensures back { result ≡ turn.pass }
{
    for _ in 0..1_000_000_000u32 {
        if asked.load(Ordering::SeqCst) {
            break;
        }
        thread::yield_now();
    }
    for _ in 0..5_000u32 {
        thread::yield_now();
    }
    parts.give_back(turn)
}

fn ask_and_add<R: Wait>(
    rt: &R,
    alloc: Global,
    parts: &Parts<Purses>,
    pass: Pass<Purses>,
    asked: &AtomicBool,
) -> Pass<Purses>
    requires own { IsPassOf parts.now pass × (parts.now.count ≡ 2) }
    ensures own { IsPassOf parts.now result × (result.number ≡ pass.number) }
{
    asked.store(true, Ordering::SeqCst);
    add_one(rt, alloc, parts, pass, 0)
}

#[test]
fn a_sleeping_worker_is_woken(rt: HostRuntime) -> Result<(), Fail> {
    let alloc = rt.alloc();
    let opening = vec![in alloc; 1000, 1000]?;
    let (parts, mut passes) = Parts::make(alloc, Purses {}, opening, 5, 2)?;
    let Some(late) = passes.pop() else {
        unreachable!()
    };
    let Some(early) = passes.pop() else {
        unreachable!()
    };
    let ids = [0];
    let turn = match parts.take(&rt, early, &ids) {
        Ok(turn) => turn,
        Err(TakeFault::NoMemory(_)) => return Ok(()),
    };
    let asked = AtomicBool::new(false);
    let (early, late) = join(
        &rt,
        ||
            requires { IsPassOf parts turn.pass }
        { give_back_late(&parts, turn, &asked) },
        ||
            requires { IsPassOf parts late × (parts.count ≡ 2) }
        { ask_and_add(&rt, alloc, &parts, late, &asked) },
    );
    let (states, events) = parts.close(vec![in alloc; early, late]?);
    assert!(rt; events.len() == 1 && states.len() == 2 && states[0] == 1001);
    Ok(())
}

// Takes parts of any machine, and gives them back.
fn visit<M: Machine, R: Wait>(rt: &R, parts: &Parts<M>, pass: Pass<M>, ids: &[u32]) -> Pass<M>
    requires own { IsPassOf parts.now pass }
    requires ids { ascends 0 ids.now × All (λ i. i < parts.now.count) ids.now }
    ensures own { IsPassOf parts.now result × (result.number ≡ pass.number) }
{
    match parts.take(rt, pass, ids) {
        Ok(turn) => parts.give_back(turn),
        Err(TakeFault::NoMemory(pass)) => pass,
    }
}

// Two threads share parts whose states and events are only free to move.
fn visit_both<M: Machine + Send, R: Threads + Wait + Sync>(
    rt: &R,
    parts: &Parts<M>,
    one: Pass<M>,
    other: Pass<M>,
    ids: &[u32],
) -> (Pass<M>, Pass<M>)
    requires one { IsPassOf parts.now one }
    requires other { IsPassOf parts.now other }
    requires ids { ascends 0 ids.now × All (λ i. i < parts.now.count) ids.now }
    ensures one { IsPassOf parts.now result.0 × (result.0.number ≡ one.number) }
    ensures other { IsPassOf parts.now result.1 × (result.1.number ≡ other.number) }
{
    join(
        rt,
        || -> Pass<M>
            requires { IsPassOf parts.now one × ascends 0 ids.now × All (λ i. i < parts.now.count) ids.now }
            ensures { IsPassOf parts.entry.now result × (result.number ≡ one.number) }
        { visit(rt, parts, one, ids) },
        || -> Pass<M>
            requires { IsPassOf parts.now other × ascends 0 ids.now × All (λ i. i < parts.now.count) ids.now }
            ensures { IsPassOf parts.entry.now result × (result.number ≡ other.number) }
        { visit(rt, parts, other, ids) },
    )
}
