//! The texts of a scenario's parts, of its canonical form, and of numbers and keys in reports.
#![tactic(auto)]

mod items;
mod print;
mod text_out;

pub use items::{write_item, write_key};
pub use print::{print_scenario, write_step};
pub use text_out::TextOut;

#[cfg(test)]
mod tests;
