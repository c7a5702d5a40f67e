//! Lock queues, with an index of where each transaction stands.
#![tactic(auto)]

mod answers;
mod places;
mod queue_table;
mod queues;

pub use answers::{OwnFault, Placed};
pub use queues::Queues;
