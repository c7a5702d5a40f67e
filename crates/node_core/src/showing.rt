//! What a node's state says of possible events.

ghost use Rattle.std.specs.Prelude.{◌≡◌};
ghost use Rattle.act_rows.specs.Commands.{is_over_or_absent};
ghost use Rattle.act_rows.specs.Acts.{may_answer, may_call, may_send};
ghost use Rattle.act_rows.specs.Steps.{session_state_of};

use client_sessions::{answer_at, call_at, session_state_over};
use node_steps::Node;

/// Whether the session may give a command.
pub fn may_call(node: &Node, session: u32) -> bool
    ensures { result ≡ may_call node.now session }
{
    call_at(node, session).is_some()
}

/// Whether an answer is ready for the session, or the end of its sleep is reached.
pub fn may_answer(node: &Node, session: u32) -> bool
    ensures { result ≡ may_answer node.now session }
{
    answer_at(node, session).is_some()
}

/// Whether the outbox has a message.
pub fn may_send(node: &Node) -> bool
    ensures { result ≡ may_send node.now }
{
    node.oldest_out().is_some()
}

/// Whether the session is at the end of its script, with no command pending.
pub fn session_over(node: &Node, session: u32) -> bool
    ensures { result ≡ is_over_or_absent (session_state_of node.now session) }
{
    match node.session_state(session) {
        Some(session_state) => session_state_over(session_state),
        None => true,
    }
}
