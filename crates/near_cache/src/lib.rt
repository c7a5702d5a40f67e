//! The near side of entries: a near cache of bounded size, and the nodes to which a primary sends its updates.
#![tactic(auto)]

mod near;
mod nears;
mod readers;

pub use near::{Kept, Near};
pub use nears::Nears;
pub use readers::Readers;
