//! The texts of a small scenario's parts.

use crate::{TextOut, print_scenario, write_item, write_key, write_step};
use ignite_types::{
    Cache, Command, Item, Key, List, Mem, Member, NodeId, PlanStep, Scenario, Session, Step, Value,
};
use std::alloc::Global;
use std::test::Fail;

/// One server, one client, a held link and a session of one command.
fn scenario(alloc: Global) -> Result<Scenario, Fail> {
    let cache = Cache {
        name: List::from_slice(alloc, b"default")?,
        parts: 4,
        backups: 1,
        near: 0,
        first: true,
        data: false,
    };
    let members = [
        Member {
            node: NodeId(1),
            server: true,
        },
        Member {
            node: NodeId(9),
            server: false,
        },
    ];
    let hold = PlanStep {
        moment: 4,
        step: Step::Hold(NodeId(9), NodeId(1)),
    };
    let put = Item::Plain(Command::Put(Key::read(b"a")?, Value::read(b"1")?));
    let session = Session {
        name: List::from_slice(alloc, b"A")?,
        node: NodeId(9),
        commands: List::from_slice(alloc, &[put])?,
    };
    let mut sessions = List::new(alloc);
    sessions.push(session)?;
    let mut caches = List::new(alloc);
    caches.push(cache)?;
    Ok(Scenario {
        format: 1,
        caches,
        nodes: List::from_slice(alloc, &members)?,
        plan: List::from_slice(alloc, &[hold])?,
        sessions,
    })
}

#[test]
fn prints_a_scenario(rt: HostRuntime) -> Result<(), Fail> {
    let text = print_scenario(rt.alloc(), &scenario(rt.alloc())?)?;
    let lines =
        b"scenario 1\nparts 4\nbackups 1\nnear 0\nserver 1\nclient 9\nplan 4 hold 9 1\nsession A 9\nput a 1\nend\n";
    assert_eq!(rt; text.as_slice(), lines.as_slice());
    Ok(())
}

#[test]
fn prints_parts(rt: HostRuntime) -> Result<(), Fail> {
    let alloc = rt.alloc();
    let scenario = scenario(alloc)?;
    let mut out = TextOut::new(alloc);
    write_key(&mut out, &scenario, &Key::read(b"a.b")?)?;
    out.byte(b' ')?;
    write_step(&mut out, &scenario, &Step::Lose(NodeId(1)))?;
    out.text(", ")?;
    write_item(
        &mut out,
        &scenario,
        &Item::Plain(Command::Add(Key::read(b"n")?, -5)),
    )?;
    out.bytes(b"; ")?;
    out.number(u64::MAX)?;
    out.byte(b' ')?;
    out.integer(i64::MIN)?;
    let bytes = b"a.b lose 1, add n -5; 18446744073709551615 -9223372036854775808";
    assert_eq!(rt; out.into_vec().as_slice(), bytes.as_slice());
    Ok(())
}
