//! Generated scenarios.

ghost use Rattle.std.specs.Prelude.{◌≡◌, ◌≤◌, ◌<◌, IfOk, IsTrue, OnOk};
ghost use Rattle.ignite_types.specs.Good.{good};
ghost use Rattle.sched_seed.specs.Generated.{caches, generated, generated_session, home, nodes, plan, sessions_from};
ghost use Rattle.sched_seed.specs.Transactions.{after_script};

use crate::transaction::{numbered, script};
use ignite_types::{Cache, List, Mem, Member, NodeId, PlanStep, Scenario, Session, Step};
use rand_pcg::Lcg64Xsh32;
use std::alloc::Global;

/// The stream that scenarios are drawn from.
const SCENARIOS: u64 = 7;

/// The nodes that the sessions are on, in turn.
const HOMES: [u32; 4] = [1, 3, 4, 9];

fn caches(alloc: Global) -> Mem<List<Cache>>
    ensures { IfOk result (λ list. list ≡ caches) }
{
    let name = List::from_slice(alloc, b"default")?;
    let mut list = List::new(alloc);
    list.push(Cache {
        name,
        parts: 64,
        backups: 1,
        near: 16,
        first: true,
        data: false,
    })?;
    Ok(list)
}

fn member(number: u32, server: bool) -> Member
    ensures { result ≡ record { node = record { 0 = number }; server = server } }
{
    let node = NodeId(number);
    Member { node, server }
}

fn nodes(alloc: Global) -> Mem<List<Member>>
    ensures { IfOk result (λ list. list ≡ nodes) }
{
    let servers = [
        member(1, true),
        member(2, true),
        member(3, true),
        member(4, true),
        member(9, false),
    ];
    List::from_slice(alloc, &servers)
}

fn plan(alloc: Global) -> Mem<List<PlanStep>>
    ensures { IfOk result (λ list. list ≡ plan) }
{
    let join = PlanStep {
        moment: 20,
        step: Step::Join(member(5, true)),
    };
    let lose = PlanStep {
        moment: 60,
        step: Step::Lose(NodeId(2)),
    };
    List::from_slice(alloc, &[join, lose])
}

/// The node of a session, by its place from 0.
fn home(place: u32) -> NodeId
    ensures { result ≡ home place }
{
    NodeId(HOMES[place as usize % 4])
}

/// A session, by its place from 0, with so many transactions.
fn session(alloc: Global, place: u32, txs: u32, generator: &mut Lcg64Xsh32) -> Mem<Session>
    requires { place < 64 }
    ensures value { IfOk result (λ s. s ≡ generated_session place txs generator.old) }
    ensures rest { OnOk result (generator.new ≡ after_script txs generator.old) }
{
    let name = numbered(alloc, b'S', place + 1)?;
    let commands = script(alloc, txs, generator)?;
    let node = home(place);
    Ok(Session {
        name,
        node,
        commands,
    })
}

/// So many sessions of so many transactions each.
fn sessions_of(
    alloc: Global,
    sessions: u32,
    txs: u32,
    generator: &mut Lcg64Xsh32,
) -> Mem<List<Session>>
    requires { sessions ≤ 64 }
    ensures { IfOk result (λ list. list ≡ sessions_from 0 sessions txs generator.old) }
{
    let mut list = List::new(alloc);
    for place in 0..sessions {
        list.push(session(alloc, place, txs, generator)?)?;
    }
    Ok(list)
}

/// The scenario of a seed, with 1 to 64 sessions of 1 to 100 transactions each. It is good.
///
/// Servers 1 to 4 and client 9 are there from the start, server 5 joins and server 2 is lost. Each transaction moves an
/// amount from 1 to 100 from one of the keys `k0` to `k15` to another; a session has 5 commands for each.
pub fn make_scenario(alloc: Global, seed: u64, sessions: u32, txs: u32) -> Mem<Scenario>
    requires few_sessions { sessions ≤ 64 }
    requires few_txs { txs ≤ 100 }
    ensures value { IfOk result (λ scenario. scenario ≡ generated seed sessions txs) }
    ensures good { IfOk result (λ scenario. IsTrue (good scenario)) }
{
    let mut generator = Lcg64Xsh32::new(seed, SCENARIOS);
    let sessions = sessions_of(alloc, sessions, txs, &mut generator)?;
    Ok(Scenario {
        format: 1,
        caches: caches(alloc)?,
        nodes: nodes(alloc)?,
        plan: plan(alloc)?,
        sessions,
    })
}
