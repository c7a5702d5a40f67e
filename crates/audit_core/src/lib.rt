//! The audit of a printed history: whether it is one serial history of a plain map, and else its first fault.
#![tactic(auto)]

mod history;
mod ledger;
mod shape;
mod tables;
#[cfg(test)]
mod tests;
mod text;
mod told;
mod top;
mod verdict;
mod version;

pub use history::{Change, History, HistoryEntry};
pub use ledger::Ledger;
pub use shape::{ShapeFault, history_in};
pub use tables::{NameSet, PlainMap};
pub use text::LongText;
pub use told::{finding_line, finding_status};
pub use top::{ToolText, audit, audit_text, line_bytes};
pub use verdict::{EntryFault, Finding, verdict_on};
