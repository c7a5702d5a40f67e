//! What waits for the version starts once the last version seen is open here.

ghost use Rattle.std.specs.Prelude.{◌≡◌, OnOk, IfOk};
ghost use Rattle.act_rows.specs.Starts.{after_start, after_start_all, after_start_each, after_start_session, sessions_of, takes_version};
ghost use Rattle.act_rows.specs.Steps.{session_state_of};

use ignite_types::{Command, List, Mem, Rec, TxId};
use near_side::{access_key, fix_version, run_command};
use node_state::TxState;
use node_steps::Node;

/// Accesses and commits take a version.
fn is_start(command: &Command) -> bool
    ensures { result ≡ takes_version command.now }
{
    match command {
        Command::Commit => true,
        _ => access_key(command).is_some(),
    }
}

fn start(node: &mut Node, tx: TxId, block: bool, command: &Command) -> Mem<()>
    ensures { OnOk result (node.new ≡ after_start node.old tx block command.now) }
{
    let top = node.seen();
    fix_version(node, tx, top)?;
    node.note(Rec::Start { tx, top })?;
    run_command(node, tx, top, block, command)
}

/// The session's transaction starts, where an access or a commit of it waits.
fn start_session(node: &mut Node, session: u32) -> Mem<()>
    ensures { OnOk result (node.new ≡ after_start_session node.old (session_state_of node.old session)) }
{
    let Some(session_state) = node.session_state(session) else {
        return Ok(());
    };
    let block = session_state.block;
    let pending = session_state.pending;
    let Some(tx) = session_state.tx else {
        return Ok(());
    };
    let Some(entry) = node.entry(&tx) else {
        return Ok(());
    };
    match (entry.state, &pending) {
        (TxState::Idle, Some(command)) => {
            if is_start(command) {
                start(node, tx, block, command)
            } else {
                Ok(())
            }
        }
        _ => Ok(()),
    }
}

fn start_each(node: &mut Node, sessions: &[u32]) -> Mem<()>
    ensures { OnOk result (node.new ≡ after_start_each node.old sessions.now) }
{
    for session in sessions {
        start_session(node, *session)?;
    }
    Ok(())
}

/// The sessions on this node, by number.
fn sessions_of(node: &Node) -> Mem<List<u32>>
    ensures { IfOk result (λ sessions. sessions ≡ sessions_of node.now) }
{
    let mut sessions = List::new(node.alloc);
    for (session, _) in node.session_states() {
        sessions.push(*session)?;
    }
    Ok(sessions)
}

/// All that waits for the version, by session, where it is open.
pub fn start_all(node: &mut Node) -> Mem<()>
    ensures { OnOk result (node.new ≡ after_start_all node.old) }
{
    if node.is_open() {
        let sessions = sessions_of(node)?;
        start_each(node, sessions.as_slice())
    } else {
        Ok(())
    }
}
