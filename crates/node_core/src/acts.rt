//! The acts of a node.

ghost use Rattle.std.specs.Prelude.{◌≡◌, [], OnOk, IfOk};
ghost use Rattle.act_rows.specs.Acts.{after_event_effects, after_message, after_see, answer_act, call_act, expire_act, join_act, message_act, minor_act, see_act, with_act_begun};
ghost use Rattle.act_rows.specs.Closing.{after_closing_rules};

use crate::closing::close;
use crate::messages::on_message;
use client_sessions::{on_answer, on_call};
use deadlock_search::{on_expire, search_saw_leave};
use ignite_types::{List, Mem, Message, NodeId, Rec, TopoEvent, TxId};
use node_steps::Node;
use partition_exchange::learn_all;
use prepare_finish::primary_saw_leave;
use tx_decisions::near_side_saw_leave;
use tx_recovery::begin_round;

/// What a message does, with the closing rules at its end.
fn act_on(node: &mut Node, from: NodeId, message: &Message) -> Mem<()>
    ensures { OnOk result (node.new ≡ after_closing_rules (after_message (with_act_begun node.old) from message.now)) }
{
    node.begin_act();
    on_message(node, from, message)?;
    close(node)
}

/// Takes a message. Answers the records of the act.
pub fn take_message(node: &mut Node, from: NodeId, message: Message) -> Mem<List<Rec>>
    ensures state { OnOk result (node.new ≡ (message_act node.old from message).state) }
    ensures recs { IfOk result (λ recs. recs ≡ (message_act node.old from message).recs) }
{
    act_on(node, from, &message)?;
    let notes = node.take_notes();
    let mut recs = List::with_capacity(node.alloc, notes.len() + 1)?;
    recs.push(Rec::Deliver { from, message })?;
    recs.append(notes)?;
    Ok(recs)
}

/// What seeing an event brings beside its version: a loss ends waits and begins a recovery.
fn bring(node: &mut Node, place: u64, event: &TopoEvent) -> Mem<()>
    ensures { OnOk result (node.new ≡ after_event_effects node.old place event.now) }
{
    match event {
        TopoEvent::Left(lost) => {
            near_side_saw_leave(node, *lost)?;
            primary_saw_leave(node, *lost)?;
            begin_round(node, place)?;
            search_saw_leave(node, *lost)
        }
        _ => Ok(()),
    }
}

/// The next topology event is read.
fn see_event(node: &mut Node, event: &TopoEvent) -> Mem<()>
    ensures { OnOk result (node.new ≡ after_see node.old node.old.read event.now) }
{
    let place = node.events_read();
    node.learn(event)?;
    node.note(Rec::See {
        place: place as usize,
    })?;
    bring(node, place, event)
}

/// What seeing the next topology event does, with the closing rules at its end.
fn see_on(node: &mut Node, event: &TopoEvent) -> Mem<()>
    ensures { OnOk result (node.new ≡ after_closing_rules (after_see (with_act_begun node.old) node.old.read event.now)) }
{
    node.begin_act();
    see_event(node, event)?;
    close(node)
}

/// Reads the next topology event. Answers the records of the act.
pub fn see(node: &mut Node, event: &TopoEvent) -> Mem<List<Rec>>
    ensures state { OnOk result (node.new ≡ (see_act node.old event.now).state) }
    ensures recs { IfOk result (λ recs. recs ≡ (see_act node.old event.now).recs) }
{
    see_on(node, event)?;
    Ok(node.take_notes())
}

/// Joins: learns the events before its own Join and the clock, and reads that Join. Answers the records of the act.
pub fn join(node: &mut Node, events: &[TopoEvent], now: u64, own: &TopoEvent) -> Mem<List<Rec>>
    ensures state { OnOk result (node.new ≡ (join_act node.old events.now now own.now).state) }
    ensures recs { IfOk result (λ recs. recs ≡ (join_act node.old events.now now own.now).recs) }
{
    learn_all(node, events, now)?;
    see(node, own)
}

/// The deadline of a transaction was reached. Answers the records of the act.
pub fn expire(node: &mut Node, tx: TxId) -> Mem<List<Rec>>
    ensures state { OnOk result (node.new ≡ (expire_act node.old tx).state) }
    ensures recs { IfOk result (λ recs. recs ≡ (expire_act node.old tx).recs) }
{
    node.begin_act();
    on_expire(node, tx)?;
    close(node)?;
    Ok(node.take_notes())
}

/// Takes the next command of a session. Answers the records of the act.
pub fn take_call(node: &mut Node, session: u32) -> Mem<List<Rec>>
    ensures state { OnOk result (node.new ≡ (call_act node.old session).state) }
    ensures recs { IfOk result (λ recs. recs ≡ (call_act node.old session).recs) }
{
    node.begin_act();
    on_call(node, session)?;
    close(node)?;
    Ok(node.take_notes())
}

/// Gives a session its answer. Answers the records of the act.
pub fn give_answer(node: &mut Node, session: u32) -> Mem<List<Rec>>
    ensures state { OnOk result (node.new ≡ (answer_act node.old session).state) }
    ensures recs { IfOk result (λ recs. recs ≡ (answer_act node.old session).recs) }
{
    node.begin_act();
    on_answer(node, session)?;
    Ok(node.take_notes())
}

/// Begins the late switch of owners. The act notes nothing.
pub fn begin_minor(node: &mut Node)
    ensures { node.new ≡ (minor_act node.old).state }
{
    node.begin_act();
}
