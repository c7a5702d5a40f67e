//! Open work counted by topology version, so that a member knows when all of it below a version is done.
#![tactic(auto)]

mod count;

pub use count::DrainCount;
