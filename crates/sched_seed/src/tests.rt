//! Picks and scenarios, beside words that the generators' definition gives.

use crate::{Picker, make_scenario};
use ignite_types::{Command, Item, Key, Mode, NodeId, TextFault};
use std::test::Fail;

/// A transaction that moves an amount from one key to another.
fn moving(mode: Mode, from: &[u8], to: &[u8], amount: i32) -> Result<[Item; 5], TextFault> {
    let timeout = if mode == Mode::Pessimistic { 50 } else { 0 };
    let amount = i64::from(amount);
    Ok([
        Item::Plain(Command::Begin(mode, timeout)),
        Item::Plain(Command::Add(Key::read(from)?, -amount)),
        Item::Plain(Command::Add(Key::read(to)?, amount)),
        Item::Plain(Command::Commit),
        Item::Plain(Command::Sleep(1)),
    ])
}

#[test]
fn picks_by_the_words_of_a_seed(rt: HostRuntime) {
    let mut still = Picker::new(0);
    assert_eq!(rt; still.pick(9), 0);
    assert_eq!(rt; still.pick(9), 0);
    let mut picker = Picker::new(7);
    for (n, want) in [(9, 2), (1, 0), (9, 7), (2, 1), (1000, 637), (9, 3)] {
        let picked = picker.pick(n);
        assert_eq!(rt; picked, want, "of {n}");
    }
}

#[test]
fn generates_a_scenario(rt: HostRuntime) -> Result<(), Fail> {
    let scenario = make_scenario(rt.alloc(), 5, 2, 3)?;
    assert_eq!(rt; scenario.format, 1);
    let [first, second] = scenario.sessions.as_slice() else {
        return Err(Fail::from("two sessions are wanted"));
    };
    assert_eq!(rt; first.name.as_slice(), b"S1".as_slice());
    assert_eq!(rt; first.node, NodeId(1));
    assert_eq!(rt; first.commands.len(), 15);
    assert_eq!(rt; second.name.as_slice(), b"S2".as_slice());
    assert_eq!(rt; second.node, NodeId(3));
    assert_eq!(rt; second.commands.len(), 15);

    let opening = moving(Mode::Pessimistic, b"k2", b"k15", 62)?;
    assert_eq!(rt; &first.commands.as_slice()[..5], opening.as_slice());
    let next = moving(Mode::Optimistic, b"k3", b"k11", 18)?;
    assert_eq!(rt; &first.commands.as_slice()[5..10], next.as_slice());
    let last = moving(Mode::Pessimistic, b"k14", b"k0", 74)?;
    assert_eq!(rt; &second.commands.as_slice()[10..], last.as_slice());
    Ok(())
}

#[test]
fn moves_between_two_keys(rt: HostRuntime) -> Result<(), Fail> {
    let scenario = make_scenario(rt.alloc(), 21, 1, 1)?;
    let want = moving(Mode::Pessimistic, b"k8", b"k9", 96)?;
    for session in scenario.sessions.as_slice() {
        assert_eq!(rt; session.commands.as_slice(), want.as_slice());
    }
    assert_eq!(rt; scenario.sessions.len(), 1);
    Ok(())
}
