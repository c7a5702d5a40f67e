//! The world's machine, runs and histories, as definitions; and the calls that compute a history.
#![tactic(auto)]

mod history;
mod outlook;
mod walk;

pub use history::{BadRead, CommitEntry, committed, entry_of, footprint, serial};
pub use outlook::{Outlook, Standing};
pub use walk::{Walk, access_key, newly_found, taker_of};
