//! The words that the protocol's rows are made of: plain data of the parts of a node and of the world, and what each call
//! of a part does to it. The definitions stand in `specs/`.
#![tactic(auto)]

mod copies;
mod near;
mod script;

pub use copies::Entry;
pub use near::NearEntry;
pub use script::{Phase, Progress, Range, Told};
