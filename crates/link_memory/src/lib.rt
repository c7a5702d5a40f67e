//! Inboxes: messages wait there, first in first out for each sender.
#![tactic(auto)]

mod inbox;

pub use inbox::{Inbox, Link};
