//! What a session is told when its transaction has ended.

ghost use Rattle.std.specs.Prelude.{◌≡◌, OnOk};
ghost use Rattle.act_rows.specs.Decisions.{after_close_tx, after_end_tx, after_fault_ended, after_tell, closing_answer, is_block_end, session_state_after_fault, waiting_command, with_fault_kept, without_tx};
ghost use Rattle.act_rows.specs.Steps.{session_state_of};

use ignite_types::{Answer, Command, Fault, Mem, TxId};
use node_state::{SessionState, TxEntry, TxState};
use node_steps::Node;

/// Whether a fault that the command tells ends the block.
fn ends_block(command: &Command) -> bool
    ensures { result ≡ is_block_end command.now }
{
    match command {
        Command::Commit | Command::Rollback | Command::Close => true,
        _ => false,
    }
}

/// The session has no transaction any more, and is told the fault.
fn told_session_state(fault: &Fault, command: &Command, session_state: SessionState) -> SessionState
    ensures { result ≡ session_state_after_fault fault.now command.now session_state }
{
    let mut next = session_state;
    next.tx = None;
    next.skipping = next.block && !ends_block(command);
    next.block = false;
    next.ready = Some(Answer::Failed(*fault));
    next
}

/// The session is told the fault of its transaction, by this command; further accesses of a block are skipped.
#[tactic(auto, using(act_rows::proofs::TableLaws::nat_put_put))]
pub fn tell(node: &mut Node, tx: TxId, fault: &Fault, command: &Command) -> Mem<()>
    ensures { OnOk result (node.new ≡ after_tell node.old tx fault.now command.now) }
{
    node.drop_entry(&tx);
    let Some(session_state) = node.take_session_state(tx.session) else {
        return Ok(());
    };
    node.put_session_state(
        tx.session,
        told_session_state(fault, command, session_state),
    )
}

/// The fault is kept until a command asks for it.
#[tactic(auto, using(act_rows::proofs::TableLaws::tx_put_put))]
fn keep_fault(node: &mut Node, tx: TxId) -> Mem<()>
    ensures { OnOk result (node.new ≡ with_fault_kept node.old tx) }
{
    let Some(mut entry) = node.take_entry(tx) else {
        return Ok(());
    };
    entry.state = TxState::Ended;
    node.put_entry(tx, entry)
}

/// The command that waits for the end, if one does: it is not answered yet, and no sleep.
fn waiting_command(session_state: &SessionState) -> Option<Command>
    ensures { result ≡ waiting_command session_state.now }
{
    match (session_state.pending, session_state.ready) {
        (Some(Command::Sleep(_)), None) => None,
        (Some(command), None) => Some(command),
        _ => None,
    }
}

/// A rollback by fault has ended: the command that waits is told, or else a later one.
fn fault_ended(node: &mut Node, tx: TxId, fault: &Fault) -> Mem<()>
    ensures { OnOk result (node.new ≡ after_fault_ended node.old tx fault.now (session_state_of node.old tx.session)) }
{
    match node.session_state(tx.session) {
        Some(session_state) => match waiting_command(session_state) {
            Some(command) => tell(node, tx, fault, &command),
            None => keep_fault(node, tx),
        },
        None => keep_fault(node, tx),
    }
}

/// What a session is answered when its transaction has ended without a fault.
fn closing_answer(state: TxState, outcome: Option<Answer>) -> Answer
    ensures { result ≡ closing_answer state outcome }
{
    match (state, outcome) {
        (_, Some(answer)) => answer,
        (TxState::Committing, None) => Answer::Committed,
        _ => Answer::RolledBack,
    }
}

/// The session's answer is ready, and it has no transaction.
#[tactic(auto, using(act_rows::proofs::TableLaws::nat_put_put))]
fn close(node: &mut Node, tx: TxId, answer: Answer) -> Mem<()>
    ensures { OnOk result (node.new ≡ after_close_tx node.old tx answer) }
{
    node.drop_entry(&tx);
    let Some(mut session_state) = node.take_session_state(tx.session) else {
        return Ok(());
    };
    session_state.tx = None;
    session_state.block = false;
    session_state.ready = Some(answer);
    node.put_session_state(tx.session, session_state)
}

/// The transaction has ended: its session is answered, or told its fault.
pub fn end(
    node: &mut Node,
    tx: TxId,
    state: TxState,
    outcome: &Option<Answer>,
    fault: &Option<Fault>,
) -> Mem<()>
    ensures { OnOk result (node.new ≡ after_end_tx node.old tx state outcome.now fault.now) }
{
    match fault {
        Some(fault) => fault_ended(node, tx, fault),
        None => close(node, tx, closing_answer(state, *outcome)),
    }
}
