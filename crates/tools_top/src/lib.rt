//! The tools over any source and sink: what the words of the command line ask for.
#![tactic(auto)]

#[cfg(test)]
mod made_up;
#[cfg(test)]
mod tests;
mod top;
mod words;

pub use host_io::ToolStatus;
pub use top::tools;
pub use words::Tool;
