//! The parts of a world, and each event as a step of the parts that it touches alone.
#![tactic(auto)]

mod events;
mod numbers;
mod parts;

pub use events::is_of_parts;
pub use numbers::{DIRECTORY, inbox_part, node_part, part_count};
pub use parts::WorldPart;
