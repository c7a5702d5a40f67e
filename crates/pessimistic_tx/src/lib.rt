//! Pessimistic transactions at a primary: the queue of each key, whose first transaction owns it, and the release of locks,
//! which both modes share.
#![tactic(auto)]

mod locks;

pub use locks::{on_lock, release_all};
