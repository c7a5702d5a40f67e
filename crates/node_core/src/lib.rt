//! A node: its acts, each with the closing rules at its end, and what its state says of possible events.
#![tactic(auto)]

mod acts;
mod closing;
mod messages;
mod opening;
mod showing;

pub use acts::{begin_minor, expire, give_answer, join, see, take_call, take_message};
pub use node_steps::Node;
pub use opening::{new_node, opening_map_of};
pub use showing::{may_answer, may_call, may_send, session_over};
