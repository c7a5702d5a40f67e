//! The commits of small journals.

use crate::commits;
use ignite_types::{
    Answer, CacheVersion, Command, End, Event, Group, Journal, Key, List, Mem, Message, NodeId,
    Rec, Scenario, Session, TopVer, TxId, Value,
};
use std::alloc::Global;
use std::test::Fail;
use tx_model::CommitEntry;

const TOP: TopVer = TopVer { major: 1, minor: 0 };

/// A transaction of the one session, which is on node 1.
const fn tx(node: u32, number: u64) -> TxId {
    TxId {
        node: NodeId(node),
        session: 1,
        number,
    }
}

/// A journal of one session, in which node 1 notes all these records.
fn journal(alloc: Global, recs: List<Rec>) -> Mem<Journal> {
    let session = Session {
        name: List::new(alloc),
        node: NodeId(1),
        commands: List::new(alloc),
    };
    let mut sessions = List::new(alloc);
    sessions.push(session)?;
    let mut groups = List::new(alloc);
    groups.push(Group {
        event: Event::Act(NodeId(1), NodeId(1)),
        recs,
    })?;
    let scenario = Scenario {
        format: 1,
        caches: List::new(alloc),
        nodes: List::new(alloc),
        plan: List::new(alloc),
        sessions,
    };
    Ok(Journal {
        scenario,
        groups,
        end: End::AllEnded,
    })
}

/// An access that is a transaction by itself, and is answered and committed.
fn push_access(recs: &mut List<Rec>, tx: TxId, command: &Command, answer: &Answer) -> Mem<()> {
    recs.push(Rec::Call {
        session: 1,
        command: *command,
    })?;
    recs.push(Rec::Start { tx, top: TOP })?;
    if let Answer::Found(value) = answer {
        let ver = CacheVersion {
            top: TOP,
            order: 1,
            node: NodeId(1),
        };
        if let Command::Get(key) = command {
            let message = Message::LockOk {
                tx,
                key: *key,
                found: Some((*value, ver)),
            };
            recs.push(Rec::Deliver {
                from: NodeId(1),
                message,
            })?;
        }
    }
    recs.push(Rec::Answer {
        session: 1,
        answer: *answer,
    })?;
    recs.push(Rec::Decide { tx, commit: true })
}

/// Whether this is the commit of a transaction that read and wrote so much.
fn is_commit(entry: &CommitEntry, tx: &TxId, reads: usize, writes: usize) -> bool {
    entry.tx == *tx
        && entry.top == TOP
        && entry.reads.len() == reads
        && entry.writes.len() == writes
}

#[test]
fn a_write_and_a_read(rt: HostRuntime) -> Result<(), Fail> {
    let alloc = rt.alloc();
    let (key, value) = (Key::read(b"a")?, Value::read(b"1")?);
    let mut recs = List::new(alloc);
    push_access(
        &mut recs,
        tx(1, 1),
        &Command::Put(key, value),
        &Answer::Done,
    )?;
    push_access(
        &mut recs,
        tx(1, 2),
        &Command::Get(key),
        &Answer::Found(value),
    )?;
    let list = commits(alloc, &journal(alloc, recs)?)?;
    let [first, second] = list.as_slice() else {
        return Err(Fail::from("two commits"));
    };
    assert!(rt; is_commit(first, &tx(1, 1), 0, 1));
    assert!(rt; first.writes.as_slice() == [(key, Some(value))].as_slice());
    assert!(rt; is_commit(second, &tx(1, 2), 1, 0));
    assert!(rt; second.reads.as_slice() == [(key, Some(value))].as_slice());
    Ok(())
}

#[test]
fn a_transaction_of_another_node(rt: HostRuntime) -> Result<(), Fail> {
    let alloc = rt.alloc();
    let key = Key::read(b"a")?;
    let mut recs = List::new(alloc);
    push_access(&mut recs, tx(2, 1), &Command::Remove(key), &Answer::Done)?;
    let list = commits(alloc, &journal(alloc, recs)?)?;
    let [only] = list.as_slice() else {
        return Err(Fail::from("one commit"));
    };
    assert!(rt; is_commit(only, &tx(2, 1), 0, 1));
    Ok(())
}
