//! Optimistic transactions at a primary: reads that take no lock, and the check of the versions read, with the locks that
//! are taken where it passes.
#![tactic(auto)]

mod checking;
mod reads;

pub use checking::{check, own_each};
pub use reads::on_get;
