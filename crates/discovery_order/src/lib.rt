//! The directory: the one list of topology events, the members by age, the clock, the answers given, and the plan.
#![tactic(auto)]

mod changes;
mod directory;
mod losses;
#[cfg(test)]
mod tests;
mod topology;

pub use changes::{JoinFault, LeftFault};
pub use directory::Directory;
pub use topology::{
    change_members, change_running, first_top, node_set, running_from, version_after,
};
