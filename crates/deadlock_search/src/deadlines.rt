//! When a transaction may expire, and the next moment at which a node has to be woken.

ghost use Rattle.std.specs.Prelude.{◌≡◌};
ghost use Rattle.act_rows.specs.Searches.{is_overdue, is_reached, live_deadline, may_time_out, next_moment, sooner_moment};

use ignite_types::TxId;
use node_state::{TxEntry, TxState};
use node_steps::Node;

/// Whether a deadline counts: the transaction is undecided, has no fault and is not searched for.
fn may_time_out(state: TxState) -> bool
    ensures { result ≡ may_time_out state }
{
    match state {
        TxState::Idle | TxState::Active | TxState::Waiting | TxState::Preparing => true,
        _ => false,
    }
}

fn live_deadline(entry: &TxEntry) -> Option<u64>
    ensures { result ≡ live_deadline entry.now }
{
    if may_time_out(entry.state) {
        entry.deadline
    } else {
        None
    }
}

fn is_reached(now: u64, deadline: Option<u64>) -> bool
    ensures { result ≡ is_reached now deadline }
{
    match deadline {
        Some(moment) => moment <= now,
        None => false,
    }
}

/// Whether the transaction's deadline counts and was reached.
pub fn is_overdue(node: &Node, tx: &TxId) -> bool
    ensures { result ≡ is_overdue node.now tx.now }
{
    match node.entry(tx) {
        Some(entry) => is_reached(node.clock(), live_deadline(entry)),
        None => false,
    }
}

/// The least of these moments after the clock.
pub fn sooner(now: u64, best: Option<u64>, moment: Option<u64>) -> Option<u64>
    ensures { result ≡ sooner_moment now best moment }
{
    match (best, moment) {
        (best, None) => best,
        (None, Some(moment)) => { if now < moment { Some(moment) } else { None } }
        (Some(best), Some(moment)) => {
            if now < moment {
                Some(best.min(moment))
            } else {
                Some(best)
            }
        }
    }
}

/// The least deadline or sleep end after the clock.
pub fn next_moment(node: &Node) -> Option<u64>
    ensures { result ≡ next_moment node.now }
{
    let now = node.clock();
    let mut best = None;
    for (_, entry) in node.entries() {
        best = sooner(now, best, live_deadline(entry));
    }
    for (_, session_state) in node.session_states() {
        best = sooner(now, best, session_state.wake);
    }
    best
}
