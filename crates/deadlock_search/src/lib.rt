//! Timeouts, and the search for a deadlock.
#![tactic(auto)]

mod cycles;
mod deadlines;
mod edges;
mod gathering;
mod rounds;
mod waits;

pub use cycles::cycle_through;
pub use deadlines::{is_overdue, next_moment, sooner};
pub use gathering::{on_edges_ok, search_saw_leave};
pub use rounds::on_expire;
pub use waits::on_edges;
