//! Worked reports: their texts are those of the format's description.

use crate::{report, write_answer};
use ignite_types::{
    Answer, CacheVersion, Edge, End, Event, Fail as Failure, Fault, Group, Journal, Key, List, Mem,
    NoLoss, NodeId, Rec, TopVer, TopoEvent, TxId, Value, Wait,
};
use scen_print::TextOut;
use scen_text::read_scenario;
use std::alloc::Global;
use std::test::Fail;
use tx_model::{CommitEntry, Outlook, Standing};

const TOP: TopVer = TopVer { major: 1, minor: 0 };

const NEXT: TopVer = TopVer { major: 1, minor: 1 };

const SECOND_TOP: TopVer = TopVer { major: 2, minor: 0 };

const HIGHEST: TopVer = TopVer { major: 2, minor: 1 };

const A: TxId = TxId {
    node: NodeId(1),
    session: 1,
    number: 7,
};

const B: TxId = TxId {
    node: NodeId(2),
    session: 2,
    number: 3,
};

/// Of format 1: a session with a close, one that is lost, and a plan of which two steps are refused.
const FIRST: &[u8] = b"scenario 1
parts 8
server 1
server 2
plan 5 lose 2
plan 6 lose 2
plan 7 lose 1
session A 1
put a 1
end
session B 2
get b
get a
end
";

const FIRST_REPORT: &[u8] = b"session A on 1
1 put a 1: ok
2 close: rolled back
session B on 2
1 get b: none
lost: node 2
plan 3
5 lose 2: ok
6 lose 2: refused not in
7 lose 1: refused partition 3
deadlocks 1
A#7 edges 2
A#7 waits for B#3 on a at 1
B#3 waits for A#7 on b at 2
history 1
1 A#7 1.0 reads b=~ writes a=1,b=~
map 1
a=1
top 2.1
end 0
";

/// Of format 2: data commands, a cache that stops, and three sessions that wait.
const SECOND: &[u8] = b"scenario 2
cache c 4 0 0
cache e 4 0 0
data d 8 0 0
server 1
server 2
plan 3 stop e
plan 4 lose 1
session A 1
next d/s
next d/s
poll d/q
end
session B 2
get c/x
end
session C 1
get c/x
end
session D 1
get c/x
end
";

const SECOND_REPORT: &[u8] = b"session A on 1
1 next d/s: value 1
2 next d/s: value 2
3 poll d/q: empty
session B on 2
session C on 1
session D on 1
plan 2
3 stop e: ok
4 lose 1: refused partition d/1
deadlocks 0
history 1
1 A#7 1.0 reads - writes c/x=1,e/y=2
map 1
c/x=1
top 1.1
stalled B: B#3 waits for A#7 on c/x at 1
stalled C: waits for version 1.1 held by A#7
stalled D: waits for link 1 2
end 1
";

const IDLE: &[u8] = b"scenario 1
server 1
session A 1
end
";

const TRACED_REPORT: &[u8] = b"session A on 1
plan 0
deadlocks 0
history 0
map 0
top 1.0
trace 10
1 answer A
2 act 1 2
3 send 3
4 see 4
5 expire A#7
6 minor 5
7 call A
8 plan
9 tick
10 memory 6
end 5
";

/// A group for each of these events, the records being all of the first one.
fn groups(alloc: Global, events: &[Event], recs: List<Rec>) -> Mem<List<Group>> {
    let mut groups = List::new(alloc);
    let mut left = recs;
    for event in events {
        groups.push(Group {
            event: *event,
            recs: left,
        })?;
        left = List::new(alloc);
    }
    Ok(groups)
}

fn edge(node: u32, key: Key, waiter: TxId, holder: TxId) -> Edge {
    Edge {
        node: NodeId(node),
        act: 9,
        wait: Wait {
            key,
            waiter,
            holder,
        },
    }
}

/// The records of these answers, each to the session of its number, and of what came of the plan's first steps.
fn records(
    alloc: Global,
    answers: &[(u32, Answer)],
    outcomes: &[Option<NoLoss>],
) -> Mem<List<Rec>> {
    let mut recs = List::new(alloc);
    for (session, answer) in answers {
        recs.push(Rec::Answer {
            session: *session,
            answer: *answer,
        })?;
    }
    for (place, refused) in outcomes.iter().enumerate() {
        recs.push(Rec::Planned {
            place,
            refused: *refused,
        })?;
    }
    Ok(recs)
}

/// Adds a search that finds these edges.
fn push_search(alloc: Global, recs: &mut List<Rec>, tx: TxId, edges: &[Edge]) -> Mem<()> {
    let edges = List::from_slice(alloc, edges)?;
    recs.push(Rec::Searched { tx, edges })
}

/// Adds that these versions were opened.
fn push_opened(recs: &mut List<Rec>, tops: &[TopVer]) -> Mem<()> {
    for top in tops {
        recs.push(Rec::Opened { top: *top })?;
    }
    Ok(())
}

/// The records of a run of the first scenario, in which one search finds no circle.
fn first_records(alloc: Global, a: Key, b: Key) -> Mem<List<Rec>> {
    let answers = [
        (1, Answer::Done),
        (2, Answer::Absent),
        (1, Answer::RolledBack),
    ];
    let outcomes = [None, Some(NoLoss::NotIn), Some(NoLoss::LeavesPartition(3))];
    let mut recs = records(alloc, &answers, &outcomes)?;
    push_search(alloc, &mut recs, B, &[])?;
    push_search(alloc, &mut recs, A, &[edge(1, a, A, B), edge(2, b, B, A)])?;
    push_opened(&mut recs, &[HIGHEST, SECOND_TOP])?;
    Ok(recs)
}

#[test]
fn reports_format_1(rt: HostRuntime) -> Result<(), Fail> {
    let alloc = rt.alloc();
    let a = Key::read(b"a")?;
    let b = Key::read(b"b")?;
    let journal = Journal {
        scenario: read_scenario(alloc, FIRST)?,
        groups: groups(alloc, &[Event::Tick], first_records(alloc, a, b)?)?,
        end: End::AllEnded,
    };
    let shown = Outlook {
        standings: List::from_slice(alloc, &[Standing::Ended, Standing::Lost(NodeId(2))])?,
        events: List::new(alloc),
    };
    let commits = [CommitEntry {
        tx: A,
        top: TOP,
        reads: List::from_slice(alloc, &[(b, None)])?,
        writes: List::from_slice(alloc, &[(a, Some(Value::read(b"1")?)), (b, None)])?,
    }];
    let text = report(alloc, &journal, &shown, &commits, false)?;
    assert_eq!(rt; text.as_slice(), FIRST_REPORT);
    Ok(())
}

/// The records of a run of the second scenario: ten numbers are drawn, and the second one is kept.
fn second_records(alloc: Global, ten: Value) -> Mem<List<Rec>> {
    let answers = [
        (1, Answer::Found(ten)),
        (1, Answer::Done),
        (1, Answer::Absent),
        (1, Answer::Absent),
        (1, Answer::Committed),
    ];
    let mut recs = records(alloc, &answers, &[None, Some(NoLoss::LeavesPartition(9))])?;
    push_opened(&mut recs, &[NEXT])?;
    Ok(recs)
}

#[test]
fn reports_format_2(rt: HostRuntime) -> Result<(), Fail> {
    let alloc = rt.alloc();
    let x = Key::in_cache(0, b"x")?;
    let y = Key::in_cache(1, b"y")?;
    let journal = Journal {
        scenario: read_scenario(alloc, SECOND)?,
        groups: groups(
            alloc,
            &[Event::Tick],
            second_records(alloc, Value::read(b"10")?)?,
        )?,
        end: End::Stalled,
    };
    let standings = [
        Standing::Ended,
        Standing::Queued(NodeId(1), edge(1, x, B, A).wait),
        Standing::Unopened(NEXT, A),
        Standing::Held(NodeId(1), NodeId(2)),
    ];
    let shown = Outlook {
        standings: List::from_slice(alloc, &standings)?,
        events: List::from_slice(alloc, &[TopoEvent::Stop(1)])?,
    };
    let writes = [(x, Some(Value::read(b"1")?)), (y, Some(Value::read(b"2")?))];
    let commits = [CommitEntry {
        tx: A,
        top: TOP,
        reads: List::new(alloc),
        writes: List::from_slice(alloc, &writes)?,
    }];
    let text = report(alloc, &journal, &shown, &commits, false)?;
    assert_eq!(rt; text.as_slice(), SECOND_REPORT);
    Ok(())
}

#[test]
fn reports_traces(rt: HostRuntime) -> Result<(), Fail> {
    let alloc = rt.alloc();
    let events = [
        Event::Answer(1),
        Event::Act(NodeId(1), NodeId(2)),
        Event::Send(NodeId(3)),
        Event::See(NodeId(4)),
        Event::Expire(A),
        Event::Minor(NodeId(5)),
        Event::Call(1),
        Event::Plan,
        Event::Tick,
        Event::Memory(NodeId(6)),
    ];
    let journal = Journal {
        scenario: read_scenario(alloc, IDLE)?,
        groups: groups(alloc, &events, List::new(alloc))?,
        end: End::Memory,
    };
    let shown = Outlook {
        standings: List::from_slice(alloc, &[Standing::Ended])?,
        events: List::new(alloc),
    };
    let text = report(alloc, &journal, &shown, &[], true)?;
    assert_eq!(rt; text.as_slice(), TRACED_REPORT);
    Ok(())
}

#[test]
fn writes_answers(rt: HostRuntime) -> Result<(), Fail> {
    let alloc = rt.alloc();
    let scenario = read_scenario(alloc, IDLE)?;
    let key = Key::read(b"k")?;
    let had = CacheVersion {
        top: TOP,
        order: 3,
        node: NodeId(2),
    };
    let changed = Failure::Changed {
        key,
        had,
        has: CacheVersion { order: 4, ..had },
    };
    let locked = Failure::Candidate { key, holder: A };
    let answers = [
        (Answer::Done, "ok"),
        (Answer::Found(Value::read(b"1")?), "value 1"),
        (Answer::Absent, "none"),
        (Answer::Committed, "committed"),
        (Answer::RolledBack, "rolled back"),
        (
            Answer::Failed(Fault::Check(changed)),
            "changed k had 1.0:3:2 has 1.0:4:2",
        ),
        (Answer::Failed(Fault::Check(locked)), "locked k by A#7"),
        (Answer::Failed(Fault::Timeout), "timeout"),
        (Answer::Failed(Fault::Deadlock), "timeout deadlock"),
        (Answer::Failed(Fault::Cut(NodeId(2))), "timeout cut 2"),
        (Answer::Failed(Fault::NodeLost(NodeId(3))), "node lost 3"),
        (Answer::TooManyKeys, "too many keys"),
        (Answer::NotNumber, "not a number"),
        (Answer::Overflow, "overflow"),
        (Answer::NoTransaction, "no transaction"),
        (Answer::TransactionOpen, "transaction open"),
        (Answer::Skipped, "skipped"),
        (Answer::NoCache(0), "no cache default"),
    ];
    for (answer, text) in answers {
        let mut out = TextOut::new(alloc);
        write_answer(&mut out, &scenario, &answer)?;
        assert_eq!(rt; out.into_vec().as_slice(), text.as_bytes());
    }
    Ok(())
}
