//! A session's next command and its answers.

ghost use Rattle.std.specs.Prelude.{◌≡◌, OnOk};
ghost use Rattle.act_rows.specs.Commands.{after_answer, after_hand_out, answer_at, answer_of_sleep, answer_to_give, call_at, command_to_give, is_session_state_over, session_state_after_answer};
ghost use Rattle.act_rows.specs.Steps.{on_session_state, session_state_of};

use ignite_types::{Answer, Command, Mem, Rec};
use node_state::SessionState;
use node_steps::Node;
use session_scripts::{advance, command_at};

/// The command that the session would give next: at the script's end an open block is closed.
fn next_of(session_state: &SessionState) -> Option<Command>
    ensures { result ≡ command_to_give session_state.now }
{
    match &session_state.pending {
        Some(_) => None,
        None => match command_at(session_state.script.as_slice(), &session_state.progress) {
            Some(command) => Some(command),
            None => {
                if session_state.block {
                    Some(Command::Close)
                } else {
                    None
                }
            }
        },
    }
}

/// The command that a session may give.
pub fn call_at(node: &Node, session: u32) -> Option<Command>
    ensures { result ≡ call_at node.now session }
{
    match node.session_state(session) {
        Some(session_state) => next_of(session_state),
        None => None,
    }
}

/// Whether a session is at its end: no command is pending and none is left.
pub fn session_state_over(session_state: &SessionState) -> bool
    ensures { result ≡ is_session_state_over session_state.now }
{
    session_state.pending.is_none() && next_of(session_state).is_none()
}

/// The answer of a sleep whose end is reached.
fn slept(now: u64, wake: Option<u64>) -> Option<Answer>
    ensures { result ≡ answer_of_sleep now wake }
{
    match wake {
        Some(wake) => {
            if wake <= now {
                Some(Answer::Done)
            } else {
                None
            }
        }
        None => None,
    }
}

/// The answer that the session can be given.
fn answer_for(node: &Node, session_state: &SessionState) -> Option<Answer>
    ensures { result ≡ answer_to_give node.now session_state.now }
{
    match session_state.ready {
        Some(answer) => Some(answer),
        None => slept(node.clock(), session_state.wake),
    }
}

/// The answer that is ready for a session, if one is.
pub fn answer_at(node: &Node, session: u32) -> Option<Answer>
    ensures { result ≡ answer_at node.now session }
{
    match node.session_state(session) {
        Some(session_state) => answer_for(node, session_state),
        None => None,
    }
}

/// The pending command is answered, and the session goes on in its script.
#[tactic(auto, using(act_rows::proofs::TableLaws::nat_put_put))]
fn hand_over(node: &mut Node, session: u32, answer: &Answer) -> Mem<()>
    ensures { OnOk result (node.new ≡ on_session_state node.old session (session_state_after_answer answer.now)
        (session_state_of node.old session)) }
{
    let Some(mut session_state) = node.take_session_state(session) else {
        return Ok(());
    };
    session_state.progress = advance(
        node.alloc,
        session_state.script.as_slice(),
        &session_state.progress,
        answer,
    )?;
    session_state.pending = None;
    session_state.wake = None;
    session_state.ready = None;
    node.put_session_state(session, session_state)
}

/// The session is given its answer.
pub fn on_answer(node: &mut Node, session: u32) -> Mem<()>
    ensures { OnOk result (node.new ≡ after_answer node.old session) }
{
    match answer_at(node, session) {
        Some(answer) => {
            hand_over(node, session, &answer)?;
            node.note(Rec::Answer { session, answer })
        }
        None => Ok(()),
    }
}
