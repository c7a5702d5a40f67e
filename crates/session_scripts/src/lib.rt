//! Scripts of sessions: values that are numbers, the plain command that an item needs next, and how an answer lets a session
//! go on.
#![tactic(auto)]

mod answers;
mod commands;
mod keys;
mod numbers;
mod progress;
mod ranges;

pub use answers::{answer_number, item_end, phase_after};
pub use commands::{command_at, command_of};
pub use numbers::{added, number_of, number_value};
pub use progress::{advance, advance_told};
pub use ranges::range_of;
