//! What backups and movers keep of a transaction in both phases of its commit, and when a holder forgets what it keeps of
//! earlier ones.
#![tactic(auto)]

mod backups;
mod forgetting;

pub use backups::{on_backup_finish, on_backup_prepare};
pub use forgetting::forget;
