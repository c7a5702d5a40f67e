use crate::{Made, history_json, summary};
use ignite_types::{
    Answer, Cache, Command, End, Event, Group, Item, Journal, Key, List, Mem, NodeId, Rec,
    Scenario, Session, TopVer, TxId, Value,
};
use std::alloc::Global;
use std::test::Fail;
use tx_model::{CommitEntry, Outlook};

fn name(alloc: Global, text: &str) -> Mem<List<u8>> {
    List::from_slice(alloc, text.as_bytes())
}

fn cache(alloc: Global, text: &str) -> Mem<Cache> {
    Ok(Cache {
        name: name(alloc, text)?,
        parts: 1,
        backups: 0,
        near: 0,
        first: true,
        data: false,
    })
}

/// Two caches, the second with the lower name, and a session that commits twice.
fn scenario(alloc: Global) -> Mem<Scenario> {
    let mut caches = List::new(alloc);
    caches.push(cache(alloc, "log")?)?;
    caches.push(cache(alloc, "acc")?)?;
    let commands = [Item::Plain(Command::Commit), Item::Plain(Command::Commit)];
    let mut sessions = List::new(alloc);
    sessions.push(Session {
        name: name(alloc, "A")?,
        node: NodeId(1),
        commands: List::from_slice(alloc, &commands)?,
    })?;
    Ok(Scenario {
        format: 2,
        caches,
        nodes: List::new(alloc),
        plan: List::new(alloc),
        sessions,
    })
}

/// A commit that finds nothing at one key and writes one in each cache.
fn commit(alloc: Global) -> Result<CommitEntry, Fail> {
    let log = Key::in_cache(0, b"a")?;
    let acc = Key::in_cache(1, b"b")?;
    let number = Value::read(b"-7")?;
    Ok(CommitEntry {
        tx: TxId {
            node: NodeId(1),
            session: 1,
            number: 3,
        },
        top: TopVer { major: 2, minor: 1 },
        reads: List::from_slice(alloc, &[(log, None)])?,
        writes: List::from_slice(alloc, &[(log, Some(number)), (acc, Some(number))])?,
    })
}

const JSON: &str =
    "{\"history\":[{\"reads\":[[\"log/a\",null]],\"top\":\"2.1\",\"tx\":\"A#3\",\"writes\":[[\"acc/b\",\"-7\"],[\"log/a\",\"-7\"]]}],\"map\":[[\"acc/b\",\"-7\"],[\"log/a\",\"-7\"]]}\n";

#[test]
fn json_in_the_order_of_texts(rt: HostRuntime) -> Result<(), Fail> {
    let alloc = rt.alloc();
    let scenario = scenario(alloc)?;
    let entry = commit(alloc)?;
    let json = history_json(alloc, &scenario, &[entry])?;
    assert_eq!(rt; json.as_slice(), JSON.as_bytes());
    Ok(())
}

/// A journal in which the first commit was done and the second came outside a block.
fn journal(alloc: Global) -> Mem<Journal> {
    let mut recs = List::new(alloc);
    for answer in [Answer::Committed, Answer::NoTransaction] {
        recs.push(Rec::Answer { session: 1, answer })?;
    }
    recs.push(Rec::Opened {
        top: TopVer { major: 2, minor: 1 },
    })?;
    let mut groups = List::new(alloc);
    groups.push(Group {
        event: Event::Tick,
        recs,
    })?;
    Ok(Journal {
        scenario: scenario(alloc)?,
        groups,
        end: End::AllEnded,
    })
}

const SUMMARY: &str =
    "made sessions 1 txs 2 seed 9\ncommitted 1\nfailed 1\ntotal -14\ntop 2.1\nend 0\n";

#[test]
fn summary_of_a_run(rt: HostRuntime) -> Result<(), Fail> {
    let alloc = rt.alloc();
    let made = Made {
        seed: 9,
        sessions: 1,
        txs: 2,
    };
    let shown = Outlook {
        standings: List::new(alloc),
        events: List::new(alloc),
    };
    let entry = commit(alloc)?;
    let text = summary(alloc, &journal(alloc)?, made, &shown, &[entry])?;
    assert_eq!(rt; text.as_slice(), SUMMARY.as_bytes());
    Ok(())
}
