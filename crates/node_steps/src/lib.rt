//! The small steps that the protocol's rows are made of: each looks one thing up in a node's state, or changes one.
#![tactic(auto)]

mod asking;
mod changing;
mod duplicates;
mod near;
mod node;
mod nodes;
mod outs;
mod places;
mod queues;
mod readers;
mod tables;

pub use asking::is_kept_commit;
pub use node::{Node, NodeParts};
pub use nodes::{
    add_members, add_nodes, add_transactions, has_node, holders_for, is_member, oldest_member,
};
pub use outs::{backup_finish_outs, outs_to};
pub use places::{absent_version, version_of};
pub use tables::{new_entry, new_progress, new_session_state};
