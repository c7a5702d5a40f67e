//! The commits of a journal with what each read and wrote, found in one pass over the records.
#![tactic(auto)]

mod copies;
mod entries;
mod line;
mod walks;

pub use entries::commits;

#[cfg(test)]
mod tests;
