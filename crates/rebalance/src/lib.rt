//! How the copies of movers are filled: what they ask for and are supplied with, and the late switch, which makes owners of
//! those that are complete.
#![tactic(auto)]

mod demanding;
mod filling;

pub use demanding::demand;
pub use filling::{may_switch, on_complete, on_demand, on_supply};
