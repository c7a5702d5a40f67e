//! The sessions of a node: the command that each gives next, what is done with it, the answer that it is given, and the start
//! of what waits for a topology version.
#![tactic(auto)]

mod commands;
mod sessions;
mod starts;

pub use commands::on_call;
pub use sessions::{answer_at, call_at, on_answer, session_state_over};
pub use starts::start_all;
