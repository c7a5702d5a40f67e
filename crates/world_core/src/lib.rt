//! The world: the directory, all declared nodes, their inboxes and the journal of a run, stepped one event at a time.
#![tactic(auto)]

mod acts;
mod clock;
mod losses;
mod opening;
mod parts;
mod plan;
mod possible;
mod showing;
mod standings;
mod step;
mod world;

pub use world::World;
