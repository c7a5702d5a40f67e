//! A copy of each type is made, where there is memory, and equals its source.

use crate::duplicate::Duplicate;
use ignite_types::{
    Cache, CacheVersion, Command, Effect, End, Event, Group, HeldShare, Item, Journal, Key, List,
    Mem, Member, Message, Mode, NodeId, Orphan, Out, PartMap, PlanStep, Rec, Row, Scenario,
    Session, Share, ShareState, Single, Step, Stored, TopVer, TxId, Value, Waiters, Wanted,
};
use std::alloc::Global;
use std::test::Fail;

const NODE: NodeId = NodeId(7);

const TOP: TopVer = TopVer { major: 2, minor: 1 };

const TX: TxId = TxId {
    node: NodeId(7),
    session: 3,
    number: 5,
};

const SHARE: Share = Share {
    holder: NodeId(8),
    primary: NodeId(7),
};

const MEMBER: Member = Member {
    node: NodeId(7),
    server: true,
};

const LOSS: PlanStep = PlanStep {
    moment: 4,
    step: Step::Lose(NodeId(7)),
};

/// Whether the copy of a value equals it.
fn equals_its_copy<T: Duplicate + PartialEq>(alloc: Global, value: &T) -> Mem<bool> {
    Ok(value.copy(alloc)? == *value)
}

fn one<T: Drop>(alloc: Global, item: T) -> Mem<List<T>> {
    let mut list = List::new(alloc);
    list.push(item)?;
    Ok(list)
}

fn map(alloc: Global) -> Mem<PartMap> {
    let row = Row {
        owners: one(alloc, NODE)?,
        movers: one(alloc, NodeId(9))?,
    };
    Ok(PartMap {
        top: TOP,
        parts: one(alloc, 1)?,
        rows: one(alloc, row)?,
    })
}

fn scenario(alloc: Global) -> Mem<Scenario> {
    let cache = Cache {
        name: List::from_slice(alloc, b"default")?,
        parts: 16,
        backups: 1,
        near: 4,
        first: true,
        data: false,
    };
    let session = Session {
        name: List::from_slice(alloc, b"a")?,
        node: NODE,
        commands: one(alloc, Item::Plain(Command::Begin(Mode::Optimistic, 9)))?,
    };
    Ok(Scenario {
        format: 2,
        caches: one(alloc, cache)?,
        nodes: one(alloc, MEMBER)?,
        plan: one(alloc, LOSS)?,
        sessions: one(alloc, session)?,
    })
}

fn prepare(alloc: Global, key: Key, value: Value) -> Mem<Message> {
    Ok(Message::Prepare {
        tx: TX,
        top: TOP,
        mode: Mode::Pessimistic,
        shares: one(alloc, SHARE)?,
        wanted: one(alloc, Wanted { key, had: None })?,
        writes: one(alloc, (key, Some(value)))?,
    })
}

fn orphan(alloc: Global) -> Mem<Orphan> {
    Ok(Orphan {
        tx: TX,
        shares: one(alloc, SHARE)?,
        held: one(alloc, (SHARE, ShareState::Undoing))?,
        locks: true,
    })
}

fn supply(alloc: Global, key: Key, value: Value) -> Mem<Message> {
    let stored = Stored {
        key,
        value: Some(value),
        ver: CacheVersion {
            top: TOP,
            order: 6,
            node: NODE,
        },
    };
    Ok(Message::Supply {
        top: TOP,
        part: 3,
        entries: one(alloc, stored)?,
        last: false,
    })
}

#[test]
fn copies_scenarios(rt: HostRuntime) -> Result<(), Fail> {
    let alloc = rt.alloc();
    assert!(rt; equals_its_copy(alloc, &scenario(alloc)?)?);
    Ok(())
}

#[test]
fn copies_waiters(rt: HostRuntime) -> Result<(), Fail> {
    let alloc = rt.alloc();
    let waiters = Waiters {
        key: Key::read(b"k")?,
        txs: one(alloc, TX)?,
    };
    assert!(rt; equals_its_copy(alloc, &waiters)?);
    Ok(())
}

#[test]
fn copies_held_shares(rt: HostRuntime) -> Result<(), Fail> {
    let alloc = rt.alloc();
    let held = HeldShare {
        tx: TX,
        shares: one(alloc, SHARE)?,
        share: SHARE,
        state: ShareState::Committed,
    };
    assert!(rt; equals_its_copy(alloc, &held)?);
    Ok(())
}

#[test]
fn copies_singles(rt: HostRuntime) -> Result<(), Fail> {
    let alloc = rt.alloc();
    let single = Single {
        from: NODE,
        top: TOP,
        map: Some(map(alloc)?),
        complete: one(alloc, 4)?,
    };
    assert!(rt; equals_its_copy(alloc, &single)?);
    Ok(())
}

#[test]
fn copies_prepares(rt: HostRuntime) -> Result<(), Fail> {
    let alloc = rt.alloc();
    let message = prepare(alloc, Key::read(b"k")?, Value::read(b"v")?)?;
    assert!(rt; equals_its_copy(alloc, &message)?);
    Ok(())
}

#[test]
fn copies_supplies(rt: HostRuntime) -> Result<(), Fail> {
    let alloc = rt.alloc();
    let message = supply(alloc, Key::read(b"k")?, Value::read(b"v")?)?;
    assert!(rt; equals_its_copy(alloc, &message)?);
    Ok(())
}

#[test]
fn copies_maps(rt: HostRuntime) -> Result<(), Fail> {
    let alloc = rt.alloc();
    let message = Message::Full { map: map(alloc)? };
    assert!(rt; equals_its_copy(alloc, &message)?);
    Ok(())
}

#[test]
fn copies_orphans(rt: HostRuntime) -> Result<(), Fail> {
    let alloc = rt.alloc();
    let list = one(alloc, orphan(alloc)?)?;
    assert!(rt; equals_its_copy(alloc, &Message::Orphans { round: 2, list })?);
    Ok(())
}

/// What an act sends and notes.
fn effect(alloc: Global) -> Mem<Effect> {
    let out = Out {
        to: NODE,
        msg: Message::Finished { tx: TX },
    };
    let recs = one(alloc, Rec::Install { map: map(alloc)? })?;
    Ok(Effect {
        outs: one(alloc, out)?,
        recs,
    })
}

#[test]
fn copies_effects(rt: HostRuntime) -> Result<(), Fail> {
    let alloc = rt.alloc();
    assert!(rt; equals_its_copy(alloc, &effect(alloc)?)?);
    Ok(())
}

#[test]
fn copies_runs(rt: HostRuntime) -> Result<(), Fail> {
    let alloc = rt.alloc();
    let message = Message::Finished { tx: TX };
    let group = Group {
        event: Event::Act(NODE, NodeId(8)),
        recs: one(alloc, Rec::Sent { to: NODE, message })?,
    };
    let journal = Journal {
        scenario: scenario(alloc)?,
        groups: one(alloc, group)?,
        end: End::Stalled,
    };
    assert!(rt; equals_its_copy(alloc, &journal)?);
    Ok(())
}
