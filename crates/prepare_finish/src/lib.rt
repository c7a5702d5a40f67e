//! Both phases of a commit at a primary. Each row of the protocol is a function over the node.
#![tactic(auto)]

mod finish;
mod primary;

pub use finish::{
    on_finish, on_near_done, on_own_backup_finished, primary_saw_leave, shares_go_on,
};
pub use primary::{on_backup_prepared, on_prepare};
