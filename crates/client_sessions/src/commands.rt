//! How a session's commands are taken.

ghost use Rattle.std.specs.Prelude.{◌≡◌, OnOk};
ghost use Rattle.act_rows.specs.Commands.{after_access_command, after_begin, after_call, after_command, after_command_in_transaction, after_command_without_fault, after_end_command, after_open_tx, after_skip_end, after_sleep, deadline_at, moment_after, next_tx, with_pending};
ghost use Rattle.act_rows.specs.Steps.{entry_of, session_state_of};

use crate::sessions::call_at;
use ignite_types::{Answer, Command, Mem, Mode, Rec, TopVer, TxId};
use near_side::run_command;
use node_state::TxState;
use node_steps::{Node, new_entry};
use tx_decisions::{decide, tell};

/// The sum of two moments, which stands still at the end of its type.
fn later(now: u64, moments: u64) -> u64
    ensures { result ≡ moment_after now moments }
{
    now.saturating_add(moments)
}

/// The deadline of a timeout; 0 is none.
fn deadline_at(now: u64, timeout: u64) -> Option<u64>
    ensures { result ≡ deadline_at now timeout }
{
    if timeout == 0 {
        None
    } else {
        Some(later(now, timeout))
    }
}

/// The name of the session's next transaction, after so many.
fn next_tx(node: &Node, session: u32, started: u64) -> TxId
    ensures { result ≡ next_tx node.now session started }
{
    TxId {
        node: node.me(),
        session,
        number: started.saturating_add(1),
    }
}

/// A new transaction, of a block or of one access.
#[tactic(auto, using(act_rows::proofs::TableLaws::nat_put_put))]
fn open(node: &mut Node, tx: TxId, mode: Mode, deadline: Option<u64>, block: bool) -> Mem<()>
    ensures { OnOk result (node.new ≡ after_open_tx node.old tx mode deadline block) }
{
    node.put_entry(tx, new_entry(node.alloc, mode, deadline))?;
    let Some(mut session_state) = node.take_session_state(tx.session) else {
        return Ok(());
    };
    session_state.tx = Some(tx);
    session_state.block = block;
    session_state.skipping = false;
    session_state.started = tx.number;
    node.put_session_state(tx.session, session_state)
}

/// Begin: a new block, unless a transaction is open or has a fault that is not told yet.
fn begin(
    node: &mut Node,
    session: u32,
    started: u64,
    mode: Mode,
    timeout: u64,
    tx: Option<TxId>,
) -> Mem<()>
    ensures { OnOk result (node.new ≡ after_begin node.old session started mode timeout tx) }
{
    match tx {
        Some(_) => node.answer(session, Answer::TransactionOpen),
        None => {
            let next = next_tx(node, session, started);
            let deadline = deadline_at(node.clock(), timeout);
            open(node, next, mode, deadline, true)?;
            node.answer(session, Answer::Done)
        }
    }
}

/// A command of a transaction without a fault: rollback and close need no version, any other waits for the start.
fn in_sound(
    node: &mut Node,
    tx: TxId,
    block: bool,
    command: &Command,
    top: Option<TopVer>,
) -> Mem<()>
    ensures { OnOk result (node.new ≡ after_command_without_fault node.old tx block command.now top) }
{
    match (command, top) {
        (Command::Rollback, _) => decide(node, tx, false),
        (Command::Close, _) => decide(node, tx, false),
        (_, Some(top)) => run_command(node, tx, top, block, command),
        (_, None) => Ok(()),
    }
}

/// A command of the open transaction: a fault that was not told yet is told once the rollback has ended.
fn in_transaction(node: &mut Node, tx: TxId, block: bool, command: &Command) -> Mem<()>
    ensures { OnOk result (node.new ≡ after_command_in_transaction node.old tx block command.now (entry_of node.old tx)) }
{
    let Some(entry) = node.entry(&tx) else {
        return Ok(());
    };
    let top = entry.top;
    match entry.fault {
        Some(fault) => match entry.state {
            TxState::Ended => tell(node, tx, &fault, command),
            _ => Ok(()),
        },
        None => in_sound(node, tx, block, command, top),
    }
}

/// An access: of the open transaction; skipped after a told fault; or of a new transaction for itself.
fn on_access(
    node: &mut Node,
    session: u32,
    started: u64,
    block: bool,
    command: &Command,
    tx: Option<TxId>,
    skipping: bool,
) -> Mem<()>
    ensures { OnOk result (node.new ≡ after_access_command node.old session started block command.now tx skipping) }
{
    match tx {
        Some(tx) => in_transaction(node, tx, block, command),
        None => {
            if skipping {
                node.answer(session, Answer::Skipped)
            } else {
                let next = next_tx(node, session, started);
                open(node, next, Mode::Pessimistic, None, false)
            }
        }
    }
}

/// The block whose fault was told is over.
#[tactic(auto, using(act_rows::proofs::TableLaws::nat_put_put))]
fn skip_end(node: &mut Node, session: u32) -> Mem<()>
    ensures { OnOk result (node.new ≡ after_skip_end node.old session) }
{
    let Some(mut session_state) = node.take_session_state(session) else {
        return Ok(());
    };
    session_state.skipping = false;
    session_state.ready = Some(Answer::Skipped);
    node.put_session_state(session, session_state)
}

/// Commit, rollback and close: of the open transaction; skipped after a told fault; or of none.
fn on_end(
    node: &mut Node,
    session: u32,
    block: bool,
    command: &Command,
    tx: Option<TxId>,
    skipping: bool,
) -> Mem<()>
    ensures { OnOk result (node.new ≡ after_end_command node.old session block command.now tx skipping) }
{
    match tx {
        Some(tx) => in_transaction(node, tx, block, command),
        None => {
            if skipping {
                skip_end(node, session)
            } else {
                node.answer(session, Answer::NoTransaction)
            }
        }
    }
}

#[tactic(auto, using(act_rows::proofs::TableLaws::nat_put_put))]
fn sleep(node: &mut Node, session: u32, moments: u64) -> Mem<()>
    ensures { OnOk result (node.new ≡ after_sleep node.old session moments) }
{
    let wake = later(node.clock(), moments);
    let Some(mut session_state) = node.take_session_state(session) else {
        return Ok(());
    };
    session_state.wake = Some(wake);
    node.put_session_state(session, session_state)
}

/// The command waits for its answer from now on.
#[tactic(auto, using(act_rows::proofs::TableLaws::nat_put_put))]
fn pend(node: &mut Node, session: u32, command: &Command) -> Mem<()>
    ensures { OnOk result (node.new ≡ with_pending node.old session command.now) }
{
    let Some(mut session_state) = node.take_session_state(session) else {
        return Ok(());
    };
    session_state.pending = Some(*command);
    node.put_session_state(session, session_state)
}

/// A command, by what its session stands at.
fn on_command(
    node: &mut Node,
    session: u32,
    started: u64,
    block: bool,
    skipping: bool,
    tx: Option<TxId>,
    command: &Command,
) -> Mem<()>
    ensures { OnOk result (node.new ≡ after_command node.old session started block skipping tx command.now) }
{
    match command {
        Command::Begin(mode, timeout) => begin(node, session, started, *mode, *timeout, tx),
        Command::Sleep(moments) => sleep(node, session, *moments),
        Command::Commit => on_end(node, session, block, command, tx, skipping),
        Command::Rollback => on_end(node, session, block, command, tx, skipping),
        Command::Close => on_end(node, session, block, command, tx, skipping),
        _ => on_access(node, session, started, block, command, tx, skipping),
    }
}

/// The session gives its next command, which is noted and pending, and then its row is done.
pub fn on_call(node: &mut Node, session: u32) -> Mem<()>
    ensures { OnOk result (node.new ≡ after_call node.old session) }
{
    let Some(command) = call_at(node, session) else {
        return Ok(());
    };
    let Some(session_state) = node.session_state(session) else {
        return Ok(());
    };
    let started = session_state.started;
    let block = session_state.block;
    let skipping = session_state.skipping;
    let tx = session_state.tx;
    pend(node, session, &command)?;
    node.note(Rec::Call { session, command })?;
    on_command(node, session, started, block, skipping, tx, &command)
}
