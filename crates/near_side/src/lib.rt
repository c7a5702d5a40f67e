//! What a starter does for its transactions: accesses, the commit's first phase, and the answers of the primaries.
#![tactic(auto)]

mod access;
mod entries;
mod preparing;
mod replies;
mod values;

pub use access::run_command;
pub use entries::fix_version;
pub use preparing::{commit, shares_of};
pub use replies::{
    on_get_ok, on_lock_ok, on_near_backup_finished, on_near_finished, on_near_update,
    on_prepare_fail, on_prepared,
};
pub use values::access_key;
